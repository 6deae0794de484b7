//! The first ten commands of the stated job.
use crate::spelled::command;
use kv_store::Command;
use mu_input::bulk;
use mu_model::NoMemory;
use std::alloc::Global;
use std::test::Fail;

/// Client, number and line of each of the first ten commands.
const FIRST_TEN: [(u8, u16, &str); 10] = [
    (0, 1, "put k0 v0"),
    (1, 1, "get k1"),
    (2, 1, "swap k2 v2"),
    (3, 1, "cas k0 v0 v3"),
    (0, 2, "del k1"),
    (1, 2, "put k2 v5"),
    (2, 2, "get k0"),
    (3, 2, "swap k1 v7"),
    (0, 3, "cas k2 x v8"),
    (1, 3, "del k0"),
];

/// Whether a command is the one that a line spells.
fn is_spelled(made: &Command, spelling: &(u8, u16, &str)) -> bool {
    let (client, number, line) = *spelling;
    command(client, number, line) == Some(*made)
}

/// Whether the stated job of ten commands has these.
fn are_ten(alloc: Global, spellings: &[(u8, u16, &str); 10]) -> Result<bool, NoMemory> {
    let job = bulk(alloc, 10)?;
    let commands = job.commands.as_slice();
    Ok(
        (commands.len(), job.config.rows.len()) == (10, 10)
            && commands
                .iter()
                .zip(spellings)
                .all(|(made, spelling)| is_spelled(made, spelling)),
    )
}

#[test]
fn bulk_ten(rt: HostRuntime) -> Result<(), Fail> {
    assert!(rt; are_ten(rt.alloc(), &FIRST_TEN)?);
    Ok(())
}
