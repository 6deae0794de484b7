//! Replica 0 of 3 as a host, step by step.
use mu_grant::Grants;
use mu_model::{Answer, Fence, Target, Verb};

/// The answer of a `Close` that finds an open fence.
fn seen(owner: Option<u8>, grant: u32, target: Target) -> Answer {
    Answer::Seen(Fence {
        owner,
        grant,
        closing: false,
        target,
    })
}

#[test]
fn grants_to_one_writer_at_a_time(rt: HostRuntime) {
    let mut grants = Grants::new(3, 0);
    grants.note_ask(0, 1);
    grants.note_ask(1, 0);
    grants.note_ask(2, 1);
    assert_eq!(rt; grants.due(0), Some(Verb::Close));
    grants.take(seen(None, 0, Target::None));
    assert_eq!(rt;
        (grants.due(1), grants.due(2), grants.due(3)),
        (None, None, Some(Verb::Grant(0)))
    );
    grants.take(Answer::Done);
    grants.note_ask(0, 1);
    assert_eq!(rt; grants.due(0), Some(Verb::Close));
    grants.take(seen(Some(0), 1, Target::Min));
    assert_eq!(rt; grants.due(1), Some(Verb::LookTarget));
    grants.take(Answer::Done);
    assert_eq!(rt; grants.due(2), Some(Verb::Drain));
    grants.take(Answer::Done);
    assert_eq!(rt; grants.due(3), Some(Verb::Grant(2)));
}

#[test]
fn has_no_other_places(rt: HostRuntime) {
    let mut grants = Grants::new(3, 0);
    grants.note_ask(2, 1);
    assert_eq!(rt; grants.due(4), None);
    assert_eq!(rt;
        (grants.due(1), grants.due(2), grants.due(3)),
        (None, None, None)
    );
}
