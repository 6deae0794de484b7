//! Sessions by chance: who asks for what, and which replica stops or pauses.
use crate::playing::{is_legal, is_stopped, pause, reply_to_next, started, stop};
use crate::store::{Ask, Texts};
use kv_store::OpKind;
use mu_engine::Engine;
use std::alloc::Global;
use std::test::Fail;

/// How many commands a session has.
const COMMANDS: u8 = 30;

/// For how many rounds a replica pauses at most.
const MOST_PAUSE: u32 = 2_000;

/// Numbers by chance, each from the one before.
#[derive(Drop)]
struct Chance {
    state: u32,
}

impl Chance {
    fn next(&mut self) -> u32 {
        let product = self.state.wrapping_mul(1_103_515_245);
        self.state = product.wrapping_add(12_345);
        self.state / 65_536
    }

    /// A client, or a replica, or a number that no replica has.
    fn number(&mut self) -> u8 {
        (self.next() % 7) as u8
    }

    fn kind(&mut self) -> OpKind {
        match self.next() % 5 {
            0 => OpKind::Put,
            1 => OpKind::Get,
            2 => OpKind::Del,
            3 => OpKind::Swap,
            _ => OpKind::Cas,
        }
    }

    fn ask(&mut self) -> Ask {
        let kind = self.kind();
        let key = (self.next() % 3) as u8;
        let text = b'1' + (self.next() % 3) as u8;
        let other = b'1' + (self.next() % 3) as u8;
        Ask {
            kind,
            key,
            text,
            other,
        }
    }
}

/// What may befall replicas.
#[derive(Clone, Copy)]
struct Troubles {
    /// How many replicas may stop or pause: those from 0 on.
    befallen: u8,
    /// How many of these may stop.
    stops: u8,
}

/// Stops or pauses a replica, or does neither. Tells what may befall replicas from then on.
fn disturb(engine: &mut Engine, chance: &mut Chance, troubles: Troubles) -> Troubles {
    let Troubles { befallen, stops } = troubles;
    let replica = chance.number();
    if replica >= befallen || is_stopped(engine, replica) {
        return troubles;
    }
    let drawn = chance.next() % 8;
    if drawn == 0 && stops > 0 {
        stop(engine, replica);
        return Troubles {
            befallen,
            stops: stops - 1,
        };
    }
    if drawn < 4 {
        pause(engine, replica, 1 + chance.next() % MOST_PAUSE);
    }
    troubles
}

/// The first command of a session that doesn't get the reply that a store gives.
fn first_wrong(engine: &mut Engine, seed: u32, mut troubles: Troubles) -> u8 {
    let mut chance = Chance { state: seed };
    let mut texts = Texts::new();
    for index in 0..COMMANDS {
        troubles = disturb(engine, &mut chance, troubles);
        let client = chance.number();
        let ask = chance.ask();
        if reply_to_next(engine, client, ask) != texts.reply_to(ask) {
            return index;
        }
    }
    COMMANDS
}

/// The first command of a session that doesn't get its reply, and whether the events are legal, in
/// the smallest ring. Fewer than half of the replicas stop or pause: one that is away for long is
/// marked as gone, and then it is as good as stopped.
fn in_small_ring(alloc: Global, replicas: u8, seed: u32) -> Result<(u8, bool), Fail> {
    let fewer = replicas.saturating_sub(1) / 2;
    let troubles = Troubles {
        befallen: fewer,
        stops: fewer,
    };
    let mut engine = started(alloc, replicas, 8, COMMANDS)?;
    let wrong = first_wrong(&mut engine, seed, troubles);
    Ok((wrong, is_legal(alloc, &engine)?))
}

/// The same in a ring for all commands: fewer than half stop, and each may pause.
fn in_large_ring(alloc: Global, replicas: u8, seed: u32) -> Result<(u8, bool), Fail> {
    let troubles = Troubles {
        befallen: replicas,
        stops: replicas.saturating_sub(1) / 2,
    };
    let mut engine = started(alloc, replicas, 64, COMMANDS)?;
    let wrong = first_wrong(&mut engine, seed, troubles);
    Ok((wrong, is_legal(alloc, &engine)?))
}

/// In the small rings a region goes astray: with plain nodes a command got no reply.
#[test]
fn sessions_by_chance(rt: HostRuntime) -> Result<(), Fail> {
    assert_eq!(rt; in_small_ring(rt.alloc(), 3, 316)?, (COMMANDS, true));
    assert_eq!(rt; in_small_ring(rt.alloc(), 5, 598)?, (COMMANDS, true));
    assert_eq!(rt; in_small_ring(rt.alloc(), 7, 2_352)?, (COMMANDS, true));
    assert_eq!(rt; in_large_ring(rt.alloc(), 3, 1)?, (COMMANDS, true));
    assert_eq!(rt; in_large_ring(rt.alloc(), 5, 1)?, (COMMANDS, true));
    Ok(())
}
