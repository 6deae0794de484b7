//! The worked examples of packed words and of places.

ghost use Rattle.std.specs.Prelude.{IfOk, ◌≡◌};

use mu_model::{Config, Row, Rows, Target};
use mu_words::{FenceWord, Layout, MinWord, SlotWord};
use std::alloc::{AllocError, Global};
use std::test::Fail;

#[test]
fn words_are_packed(rt: HostRuntime) {
    let slot = SlotWord {
        stamp: 1,
        lap: 2,
        proposal: 25,
        payload: 4_101,
    };
    assert_eq!(rt; slot.pack(), 141_287_244_992_517);
    let fence = FenceWord {
        grant: 3,
        closing: true,
        owner: Some(2),
        target: Target::Place(5),
    };
    assert_eq!(rt; fence.pack(), 118_791);
    assert!(rt; FenceWord::unpack(118_791) == fence);
    let minimum = MinWord {
        stamp: 1,
        proposal: 33,
    };
    assert_eq!(rt; minimum.pack(), 140_737_488_355_361);
    let new = FenceWord {
        grant: 0,
        closing: false,
        owner: None,
        target: Target::None,
    };
    assert_eq!(rt; new.pack(), 14_336);
}

#[test]
fn greatest_word_comes_back(rt: HostRuntime) {
    let slot = SlotWord {
        stamp: 131_071,
        lap: 511,
        proposal: 8_388_607,
        payload: 32_767,
    };
    assert_eq!(rt; slot.pack(), u64::MAX);
    assert!(rt; SlotWord::unpack(u64::MAX) == slot);
}

/// Three replicas, a ring of 8 slots, six commands.
fn layout(alloc: Global) -> Result<Layout, AllocError>
    ensures replicas { IfOk result (λ l. l.replicas ≡ 3) }
    ensures ring { IfOk result (λ l. l.ring ≡ 8) }
    ensures rows { IfOk result (λ l. l.rows ≡ 6) }
{
    let rows = Vec::from_slice(alloc, &[Row { words: [0; 12] }; 6])?;
    Ok(Layout::new(&Config {
        version: 1,
        width: 1,
        replicas: 3,
        ring: 8,
        budget: 1_000,
        rows: Rows::from_vec(rows)?,
    }))
}

#[test]
fn words_have_places(rt: HostRuntime) -> Result<(), Fail> {
    let layout = layout(rt.alloc())?;
    assert_eq!(rt; layout.slot_place(1, 10), 26);
    assert_eq!(rt; layout.row_of(4_101, 2), 182);
    assert_eq!(rt; layout.words(), 264);
    Ok(())
}
