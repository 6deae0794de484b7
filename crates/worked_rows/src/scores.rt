//! Replica 1 of 3, read by read.
use mu_detect::Scores;

/// Takes reads of replica 0 that all give one count.
fn take_same(scores: &mut Scores, count: u64, reads: u8) {
    for _ in 0..reads {
        scores.take(0, count);
    }
}

#[test]
fn falls_and_rises(rt: HostRuntime) {
    let mut scores = Scores::new(3, 1);
    take_same(&mut scores, 0, 13);
    assert_eq!(rt;
        (scores.score(0), scores.alive(0), scores.leader()),
        (2, true, 0)
    );
    scores.take(0, 0);
    assert_eq!(rt;
        (scores.score(0), scores.alive(0), scores.leader()),
        (1, false, 1)
    );
    for count in 1..=6 {
        scores.take(0, count);
    }
    assert_eq!(rt;
        (scores.score(0), scores.alive(0), scores.leader()),
        (7, true, 0)
    );
}

#[test]
fn names_itself_where_all_others_are_failed(rt: HostRuntime) {
    let mut scores = Scores::new(3, 1);
    for _ in 0..14 {
        scores.take(0, 0);
        scores.take(2, 0);
    }
    assert!(rt; !scores.alive(0) && !scores.alive(2));
    assert_eq!(rt; scores.leader(), 1);
}
