//! One writer and one reader call by call, and readers while the writer publishes a whole job.
ghost use Rattle.std.specs.Prelude.{IfOk, length, ◌≤◌};
ghost use Rattle.snap_reads.specs.Lives.{told_commands};

use crate::replays::{TWO_CLIENTS, job_of};
use crate::runs::reaches;
use kv_store::{Command, Key, Op, Text};
use mu_cluster::{Gate, Outcome, replay, rows_spell_commands};
use snap_reads::{Lived, Sight, live, start};
use std::alloc::Global;
use std::sync::atomic::{AtomicU64, Ordering};
use std::test::Fail;
use std::thread::Threads;

/// The put of a text at a key of client 0, with its number.
fn put(number: u16, key: Key, held: Text) -> Option<Command> {
    Command::new(0, number, Op::Put(key, held))
}

/// What a new reader sees at a key before the first command is published, after that, and after the
/// second one is: the text, and how many commands were published.
fn looks(alloc: Global, key: &Key, puts: &[Command; 2]) -> Result<[(Option<Text>, u16); 3], Fail> {
    let (mut writer, mut readers) = start(alloc, 2, 1)?;
    match readers.as_mut_slice() {
        [reader] => {
            writer.apply(&puts[0]);
            let before = reader.get(key);
            writer.publish();
            let between = reader.get(key);
            writer.apply(&puts[1]);
            writer.publish();
            reader.learn(writer.tell());
            let seen = [before, between, reader.get(key)];
            Ok(seen.map(|seen| (seen.value(), seen.upto())))
        }
        _ => Err(Fail::from("not one reader")),
    }
}

/// A key, two texts, and the puts of these.
fn two_puts() -> Option<(Key, [Text; 2], [Command; 2])> {
    let key = Key::new(b"a")?;
    let (five, six) = (Text::new(b"5")?, Text::new(b"6")?);
    Some((key, [five, six], [put(1, key, five)?, put(2, key, six)?]))
}

#[test]
fn publish_and_tell(rt: HostRuntime) -> Result<(), Fail> {
    let (key, [five, six], puts) = two_puts().ok_or("no command")?;
    let seen = looks(rt.alloc(), &key, &puts)?;
    assert_eq!(rt; seen, [(None, 0), (Some(five), 1), (Some(six), 2)]);
    Ok(())
}

/// Holds the first publishing until the first reader comes to its fifth get, that get until the
/// writer comes to its fourth publishing, and this until the reader comes to its sixth get. So the
/// fourth get sees nothing published and the fifth three commands, if each is made behind the gate.
/// The tenth gets of both readers wait for each other.
#[derive(Drop)]
struct Crossed {
    fifth: AtomicU64,
    fourth: AtomicU64,
    sixth: AtomicU64,
    one: AtomicU64,
    other: AtomicU64,
    failures: AtomicU64,
}

impl Crossed {
    /// Marks that one was called.
    fn mark(&self, mine: &AtomicU64) {
        mine.store(1, Ordering::SeqCst);
    }

    /// Waits until the other was called.
    fn hold(&self, other: &AtomicU64) {
        if !reaches(other, 1) {
            self.failures.store(1, Ordering::SeqCst);
        }
    }

    /// Marks that one was called, and waits until the other was.
    fn meet(&self, mine: &AtomicU64, other: &AtomicU64) {
        self.mark(mine);
        self.hold(other);
    }
}

impl Gate for Crossed {
    fn pass(&self, branch: u8, count: u32) {
        match (branch, count) {
            (0, 0) => self.hold(&self.fifth),
            (1, 4) => self.meet(&self.fifth, &self.fourth),
            (0, 3) => self.meet(&self.fourth, &self.sixth),
            (1, 5) => self.mark(&self.sixth),
            (1, 9) => self.meet(&self.one, &self.other),
            (2, 9) => self.meet(&self.other, &self.one),
            _ => {}
        }
    }
}

impl Crossed {
    fn new() -> Crossed {
        Crossed {
            fifth: AtomicU64::new(0),
            fourth: AtomicU64::new(0),
            sixth: AtomicU64::new(0),
            one: AtomicU64::new(0),
            other: AtomicU64::new(0),
            failures: AtomicU64::new(0),
        }
    }
}

/// What a replay of the job of a text leaves.
fn replayed(alloc: Global, text: &str) -> Result<Outcome, Fail>
    ensures { IfOk result (λ outcome. length (told_commands outcome) ≤ 1500) }
{
    let job = job_of(alloc, text)?;
    rows_spell_commands(&job);
    let outcome = replay(alloc, job)?;
    Ok(outcome)
}

/// The keys, the texts and how many commands were seen, of the last of these sights.
fn last_two(sights: &[Sight]) -> Option<[(Key, Option<Text>, u16); 2]> {
    let [.., first, second] = sights else {
        return None;
    };
    Some([first, second].map(|sight| (sight.key, sight.seen.value(), sight.seen.upto())))
}

/// What readers see of the job of a text.
fn lived<R: Threads + Sync, G: Gate + Sync>(
    rt: &R,
    alloc: Global,
    text: &str,
    readers: u8,
    gate: &G,
) -> Result<Lived, Fail>
    requires { (1 ≤ readers) × (readers ≤ 4) }
{
    let outcome = replayed(alloc, text)?;
    live(rt, alloc, &outcome, readers, gate).map_err(|_| Fail::from("no memory"))
}

/// How many sights each reader had.
fn counts(lived: &Lived, wanted: &[usize]) -> bool {
    let lists = lived.sights.as_slice().iter();
    lists.map(|sights| sights.len()).eq(wanted.iter().copied())
}

/// Whether the readers saw these last.
fn saw_last(lived: &Lived, wanted: [Option<[(Key, Option<Text>, u16); 2]>; 2]) -> bool {
    let lists = lived.sights.as_slice().iter();
    lists.map(|sights| last_two(sights.as_slice())).eq(wanted)
}

/// Whether the fourth get of the first reader saw nothing published, and the fifth three commands.
fn saw_beside(lived: &Lived) -> bool {
    match lived.sights.as_slice() {
        [first, ..] => match first.as_slice() {
            [_, _, _, fourth, fifth, ..] => fourth.seen.upto() == 0 && fifth.seen.upto() == 3,
            _ => false,
        },
        _ => false,
    }
}

/// What each of two readers saw last, at two keys.
fn last_sights() -> Option<[Option<[(Key, Option<Text>, u16); 2]>; 2]> {
    let a = (Key::new(b"a")?, Some(Text::new(b"1")?), 6);
    let b = (Key::new(b"b")?, Some(Text::new(b"7")?), 6);
    Some([Some([a, b]); 2])
}

/// Whether two readers of the two clients' job saw the last things, and the first one what was
/// published alongside.
fn saw<R: Threads + Sync, G: Gate + Sync>(
    rt: &R,
    alloc: Global,
    gate: &G,
    wanted: [Option<[(Key, Option<Text>, u16); 2]>; 2],
) -> Result<bool, Fail> {
    let lived = lived(rt, alloc, TWO_CLIENTS, 2, gate)?;
    Ok(saw_beside(&lived) && counts(&lived, &[202, 202]) && saw_last(&lived, wanted))
}

#[test]
fn readers_go_on_beside_the_writer(rt: HostRuntime) -> Result<(), Fail> {
    let wanted = last_sights().ok_or("no key")?;
    let gate = Crossed::new();
    let are_right = saw(&rt, rt.alloc(), &gate, wanted)?;
    assert!(rt; are_right && gate.failures.load(Ordering::SeqCst) == 0);
    Ok(())
}
