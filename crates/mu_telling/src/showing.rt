//! What holds after the first events of a legal list.
ghost use Rattle.std.specs.Prelude.{IfOk, List, Some, length, take, ◌<◌, ◌≡◌, ◌≤◌, ◌^◌};
ghost use Rattle.std.specs.List.{slice_get};
ghost use Rattle.mu_model.specs.declared.event.Event.{Event as Made};
ghost use Rattle.mu_model.specs.declared.event.Verb.TheVariants as verb;
ghost use Rattle.mu_model.specs.Answers.{answer_of};
ghost use Rattle.mu_model.specs.Contents.{IsConfig};
ghost use Rattle.mu_model.specs.Histories.{history, part};
ghost use Rattle.mu_model.specs.Knowledge.{applied, known};
ghost use Rattle.mu_model.specs.Leaderships.{has_begun, is_member, is_over, proposal_number};
ghost use Rattle.mu_model.specs.Regions.{asks, beats, fence, region_fuo, region_head, region_min};
ghost use Rattle.mu_model.specs.Scores.{is_failed, leader};
ghost use Rattle.mu_course.specs.Walks.{StandsForWalk};
ghost use Rattle.mu_outcome.specs.declared.moment.Fact.TheVariants as fact;
ghost use Rattle.mu_telling.specs.Held.{AtId, OfCourse, OfWalk};
ghost use Rattle.mu_telling.specs.Shown.{Adds, IsMoment, asks_fact as asks_fact_of, entry_fact as entry_fact_of, facts_of as facts_of_all, failed_fact as failed_fact_of, given_below, joined_below, known_fact as known_fact_of, leads_by as leads_by_these, member_fact as member_fact_of, number_shown, positions as positions_of, region_facts, replica_facts};

use crate::facts::{asks_fact, entry_fact, given_if, known_fact, leads_by};
use crate::lists::push_given;
use mu_course::{Course, Walk};
use mu_model::{Answer, Config, Event, NoMemory, Sequence, Verb, positions_in};
use mu_outcome::{Fact, Moment};
use std::alloc::Global;

/// The number that is found.
fn number_in(answer: Answer) -> u64
    ensures { result ≡ number_shown answer }
{
    match answer {
        Answer::Number(number) => number,
        _ => 0,
    }
}

/// Adds how often each of the `n` replicas asked for a region.
fn push_asks(facts: &mut Vec<Fact>, walk: &Walk, n: u8, region: u8) -> Result<(), NoMemory>
    ensures { AtId walk.now region (λ c past. n ≡ c.replicas
        → Adds result facts.old.items facts.new.items
        (given_below n (λ w. asks_fact_of region w (asks w region past)))) }
{
    for by in 0..n {
        let count = number_in(walk.answer(region, &Verb::ReadAsk(by)));
        push_given(facts, asks_fact(region, by, count))?;
    }
    Ok(())
}

/// Adds each entry that a look at one of the `positions` of a region finds.
fn push_entries(
    facts: &mut Vec<Fact>,
    walk: &Walk,
    positions: u16,
    region: u8,
) -> Result<(), NoMemory>
    ensures { AtId walk.now region (λ c past. Adds result facts.old.items facts.new.items
        (given_below positions
        (λ i. entry_fact_of region i (answer_of c region past (verb.Look region i))))) }
{
    for position in 0..positions {
        let answer = walk.answer(region, &Verb::Look(region, position));
        push_given(facts, entry_fact(region, position, answer))?;
    }
    Ok(())
}

/// The minimum, the FUO, the head and the beats of a region.
fn numbers_of(walk: &Walk, region: u8) -> Fact
    ensures { AtId walk.now region (λ c past. result
        ≡ fact.Numbers region (region_min region past) (region_fuo region past)
        (region_head region past) (beats region past)) }
{
    Fact::Numbers {
        region,
        minimum: number_in(walk.answer(region, &Verb::Min(region))),
        fuo: number_in(walk.answer(region, &Verb::Fuo(region))),
        head: number_in(walk.answer(region, &Verb::Head(region))),
        beats: number_in(walk.answer(region, &Verb::ReadBeat(region))),
    }
}

/// The fence of a region, if there is such a region.
fn fence_of(walk: &Walk, region: u8) -> Option<Fact>
    ensures { AtId walk.now region
        (λ c past. result ≡ Some (fact.Fence region (fence region past))) }
{
    match walk.fence(region) {
        None => None,
        Some(fence) => Some(Fact::Fence { region, fence }),
    }
}

/// Adds what a region holds.
fn push_region(
    facts: &mut Vec<Fact>,
    walk: &Walk,
    n: u8,
    positions: u16,
    region: u8,
) -> Result<(), NoMemory>
    ensures { AtId walk.now region (λ c past. n ≡ c.replicas → positions ≡ positions_of c
        → Adds result facts.old.items facts.new.items (region_facts c past region)) }
{
    push_given(facts, fence_of(walk, region))?;
    push_given(facts, Some(numbers_of(walk, region)))?;
    push_asks(facts, walk, n, region)?;
    push_entries(facts, walk, positions, region)
}

/// Adds the members in the leadership of a replica.
fn push_members(facts: &mut Vec<Fact>, course: &Course, n: u8, replica: u8) -> Result<(), NoMemory>
    requires { n ≤ 7 }
    ensures { OfCourse course.now replica (λ c mine. Adds result facts.old.items facts.new.items
        (given_below n (λ p. member_fact_of replica p (is_member replica p mine)))) }
{
    for region in 0..n {
        let fact = Fact::Member { replica, region };
        push_given(facts, given_if(course.is_member(region), fact))?;
    }
    Ok(())
}

/// Adds the replicas that a replica holds to be failed.
fn push_failed(facts: &mut Vec<Fact>, course: &Course, n: u8, replica: u8) -> Result<(), NoMemory>
    ensures { OfCourse course.now replica (λ c mine. n ≡ c.replicas
        → Adds result facts.old.items facts.new.items
        (given_below n (λ q. failed_fact_of replica q (is_failed replica q mine)))) }
{
    for other in 0..n {
        let fact = Fact::Failed { replica, other };
        push_given(facts, given_if(course.fails(other), fact))?;
    }
    Ok(())
}

/// The value at a position, if there is one.
fn value_at(values: &[u16], position: u16) -> Option<u16>
    ensures { result ≡ slice_get values.now position }
{
    values.get(usize::from(position)).copied()
}

/// Adds each of the values, with its position, up to this many positions.
fn push_known(
    facts: &mut Vec<Fact>,
    values: &[u16],
    positions: u16,
    replica: u8,
) -> Result<(), NoMemory>
    ensures { Adds result facts.old.items facts.new.items
        (given_below positions (λ i. known_fact_of replica i (slice_get values.now i))) }
{
    for position in 0..positions {
        let value = value_at(values, position);
        push_given(facts, known_fact(replica, position, value))?;
    }
    Ok(())
}

/// How far a replica has come, and whom its scores name.
fn reached_by(course: &Course, replica: u8) -> Fact
    ensures { OfCourse course.now replica (λ c mine. result
        ≡ fact.Reached replica (length mine) (length (known c replica mine))
        (length (applied c replica mine)) (leader c replica mine)) }
{
    Fact::Reached {
        replica,
        steps: course.steps(),
        known: course.known().len(),
        applied: course.applied_values().len(),
        named: course.named_leader(),
    }
}

/// The leadership of a replica.
fn leadership_of(course: &Course, replica: u8) -> Fact
    ensures { OfCourse course.now replica (λ c mine. result
        ≡ fact.Leadership replica (leads_by_these (has_begun replica mine)
        (is_over replica mine) (proposal_number replica mine))) }
{
    Fact::Leadership {
        replica,
        leads: leads_by(course.has_begun(), course.is_over(), course.number()),
    }
}

/// Adds what a replica has come to.
fn push_replica(
    facts: &mut Vec<Fact>,
    course: &Course,
    n: u8,
    positions: u16,
    replica: u8,
) -> Result<(), NoMemory>
    requires { n ≤ 7 }
    ensures { OfCourse course.now replica (λ c mine. n ≡ c.replicas → positions ≡ positions_of c
        → Adds result facts.old.items facts.new.items (replica_facts c replica mine)) }
{
    push_given(facts, Some(reached_by(course, replica)))?;
    push_given(facts, Some(leadership_of(course, replica)))?;
    push_members(facts, course, n, replica)?;
    push_failed(facts, course, n, replica)?;
    push_known(facts, course.known(), positions, replica)
}

/// The same of the replica of this id.
fn push_replica_at(
    facts: &mut Vec<Fact>,
    walk: &Walk,
    n: u8,
    positions: u16,
    replica: u8,
) -> Result<(), NoMemory>
    requires { n ≤ 7 }
    ensures { AtId walk.now replica (λ c past. n ≡ c.replicas → positions ≡ positions_of c
        → Adds result facts.old.items facts.new.items
        (replica_facts c replica (part replica past))) }
{
    match walk.course(replica) {
        None => Ok(()),
        Some(course) => push_replica(facts, course, n, positions, replica),
    }
}

/// Adds what the regions hold.
fn push_regions(facts: &mut Vec<Fact>, walk: &Walk, n: u8, positions: u16) -> Result<(), NoMemory>
    ensures { OfWalk walk.now n (λ c past. positions ≡ positions_of c
        → Adds result facts.old.items facts.new.items (joined_below n (region_facts c past))) }
{
    for region in 0..n {
        push_region(facts, walk, n, positions, region)?;
    }
    Ok(())
}

/// Adds what the replicas have come to.
fn push_replicas(facts: &mut Vec<Fact>, walk: &Walk, n: u8, positions: u16) -> Result<(), NoMemory>
    requires { n ≤ 7 }
    ensures { OfWalk walk.now n (λ c past. positions ≡ positions_of c
        → Adds result facts.old.items facts.new.items
        (joined_below n (λ r. replica_facts c r (part r past)))) }
{
    for replica in 0..n {
        push_replica_at(facts, walk, n, positions, replica)?;
    }
    Ok(())
}

/// What holds, as facts.
fn facts_of(alloc: Global, config: &Config, walk: &Walk) -> Result<Vec<Fact>, NoMemory>
    requires { IsConfig config.now }
    ensures { (past : List Made) → StandsForWalk config.now past walk.now
        → IfOk result (λ facts. facts.items ≡ facts_of_all config.now past) }
{
    let n = config.replicas;
    let positions = positions_in(config) as u16;
    let mut facts = Vec::new(alloc);
    push_regions(&mut facts, walk, n, positions)?;
    push_replicas(&mut facts, walk, n, positions)?;
    Ok(facts)
}

/// What holds after the first `count` events of a list, which are legal, by the states after them.
/// Takes memory for that.
///
/// # Errors
///
/// Only for want of memory.
pub fn moment_of(
    alloc: Global,
    config: &Config,
    events: &[Event],
    count: usize,
    walk: &Walk,
) -> Result<Moment, NoMemory>
    requires config { IsConfig config.now }
    requires stands { StandsForWalk config.now (history (take count events.now)) walk.now }
    ensures is { IfOk result (IsMoment config.now events.now count) }
    ensures few { IfOk result (λ moment. length moment.facts < 2 ^ 32) }
{
    let facts = facts_of(alloc, config, walk)?;
    Ok(Moment {
        taken: count,
        events: events.len(),
        facts: Sequence::from_vec(facts),
    })
}
