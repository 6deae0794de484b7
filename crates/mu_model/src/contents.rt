//! The rows of a configuration, its positions, and what payload numbers stand for.
ghost use Rattle.std.specs.Prelude.{length, ◌+◌, ◌<◌, ◌≡◌, ◌≤◌};
ghost use Rattle.mu_model.specs.Contents.{begins_batch, client_of, config_word, is_batch, is_mark, number_of, numbers_in, rest_of, row_count, rows_from, rows_of};
ghost use Rattle.mu_model.specs.Room.{reserve};

use crate::config::Config;

/// How many payload numbers each replica has: those of replica `r` are from `r * PAYLOADS` on, and
/// what is left of one after a division stands for a row or a mark.
pub const PAYLOADS: u16 = 4096;

/// The remainder by `PAYLOADS` of the payload number that stands for the mark of replica 0; those
/// of the others follow. No job has this many rows.
pub const FIRST_MARK: u16 = 4080;

/// How many rows the job has.
pub fn count_of_rows(config: &Config) -> usize
    ensures { result ≡ row_count config.now }
{
    config.rows.len()
}

/// How many places are left free for marks: none in version 1, and one for each replica in version
/// 2.
pub fn reserve_of(config: &Config) -> u8
    ensures { result ≡ reserve config.now }
{
    if config.version == 2 {
        config.replicas
    } else {
        0
    }
}

/// How many positions there are: as many as rows and places for marks, and one more.
pub fn positions_in(config: &Config) -> usize
    requires { row_count config.now ≤ 1500 }
    ensures count { result ≡ row_count config.now + reserve config.now + 1 }
    ensures few { result < 2048 }
{
    count_of_rows(config) + usize::from(reserve_of(config)) + 1
}

/// Word `k` of row `j`, or 0 if there is none.
pub fn row_word(config: &Config, j: u16, k: u8) -> u64
    requires { k < 12 }
    ensures { result ≡ config_word config.now j k }
{
    match config.rows.as_slice().get(usize::from(j)) {
        None => 0,
        Some(row) => row.words[usize::from(k)],
    }
}

/// How many rows of the same batch follow row `j`, or 0 if there is none.
pub fn row_rest(config: &Config, j: u16) -> u8
    ensures { result ≡ rest_of config.now j }
{
    match config.rows.as_slice().get(usize::from(j)) {
        None => 0,
        Some(row) => row.rest(),
    }
}

/// The client of row `j`, or 0 if there is none.
pub fn row_client(config: &Config, j: u16) -> u8
    ensures { result ≡ client_of config.now j }
{
    match config.rows.as_slice().get(usize::from(j)) {
        None => 0,
        Some(row) => row.client(),
    }
}

/// Which command of its client row `j` is, counted from 1, or 0 if there is none.
pub fn row_number(config: &Config, j: u16) -> u16
    ensures { result ≡ number_of config.now j }
{
    match config.rows.as_slice().get(usize::from(j)) {
        None => 0,
        Some(row) => row.number(),
    }
}

/// Whether row `j` begins a batch.
fn is_batch_start(config: &Config, j: u16) -> bool
    ensures { result ≡ begins_batch config.now j }
{
    j == 0 || row_rest(config, j - 1) == 0
}

/// Whether `v` stands for a batch.
pub fn stands_for_batch(config: &Config, v: u16) -> bool
    ensures { result ≡ is_batch config.now v }
{
    v / PAYLOADS < u16::from(config.replicas)
        && usize::from(v % PAYLOADS) < count_of_rows(config)
        && is_batch_start(config, v % PAYLOADS)
}

/// Whether `v` stands for a mark of `q`.
pub fn stands_for_mark(config: &Config, q: u8, v: u16) -> bool
    ensures { result ≡ is_mark config.now q v }
{
    v / PAYLOADS < u16::from(config.replicas)
        && config.version == 2
        && q < config.replicas
        && v % PAYLOADS == FIRST_MARK + u16::from(q)
}

/// How many of some rows of a batch are the client's.
#[tactic(auto, using(crate::proofs::Scans::rows_after))]
fn rows_of_client(config: &Config, client: u64, n: u64, j: u16) -> u64
    requires rows { n ≤ 256 }
    requires row { j < 4096 }
    ensures is { result ≡ length (numbers_in config.now client (rows_from n j)) }
    ensures few { result ≤ n }
{
    let mut count: u64 = 0;
    for t in 0..n {
        if u64::from(row_client(config, j + t as u16)) == client {
            count += 1;
        }
    }
    count
}

/// How many commands of the client the entry `v` holds.
pub fn count_of_commands(config: &Config, client: u64, v: u16) -> u64
    ensures is { result ≡ length (numbers_in config.now client (rows_of config.now v)) }
    ensures few { result ≤ 256 }
{
    if stands_for_batch(config, v) {
        let rows = u64::from(row_rest(config, v % PAYLOADS)) + 1;
        rows_of_client(config, client, rows, v % PAYLOADS)
    } else {
        0
    }
}
