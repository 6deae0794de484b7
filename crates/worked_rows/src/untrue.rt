//! Statements on legal lists that look right and are false, each shown by a list.
ghost use Rattle.mu_model.specs.Contents.{IsConfig};

use crate::event_scripts::{LONG_JOB, config_of};
use crate::laws::first_choice;
use mu_law::is_legal;
use mu_model::{Answer, Config, Event, NoMemory, Target, Verb};
use mu_regions::Regions;
use std::alloc::Global;
use std::test::Fail;

/// Five replicas with one command.
const JOB_OF_FIVE: &str = "mu 1\nreplicas 5\nring 8\nbudget 1000\nclient 0\nput a 5\nend\n";

/// The row of `put a 5` of client 0, number 1.
const WORDS: [u64; 12] = [1_103_806_660_609, 97, 0, 0, 53, 0, 0, 0, 0, 0, 0, 0];

/// What replica 0, 1 and 2 put as their own: the command of the job, in their own row.
const FIRST: u16 = 0;

const SECOND: u16 = 4096;

const THIRD: u16 = 8192;

/// A stretch of steps of one replica.
#[derive(Clone, Copy)]
enum Stretch {
    /// It asks, is granted these regions, puts its number at each and looks there.
    Lead(u8, &'static [u8], u32),
    /// It writes its row.
    Write(u8),
    /// It enters the first slot of the region, and puts the value there under the number.
    Fill(u8, u8, u32, u16),
    /// One step.
    Step(u8, Verb),
}

/// A list that is written down step by step.
#[derive(Drop)]
struct Course {
    replicas: u8,
    regions: Regions,
    events: Vec<Event>,
}

impl Course {
    fn new(alloc: Global, config: &Config) -> Result<Course, NoMemory>
        requires { IsConfig config.now }
    {
        Ok(Course {
            replicas: config.replicas,
            regions: Regions::new(alloc, config)?,
            events: Vec::new(alloc),
        })
    }

    /// A step with the answer that the regions give it.
    fn step(&mut self, by: u8, verb: Verb) -> Result<Answer, NoMemory> {
        let answer = self.regions.answer(by, &verb);
        let event = Event { by, verb, answer };
        self.regions.take(&event);
        self.events.push(event)?;
        Ok(answer)
    }

    /// The host drains what the owner may still write, and grants its region.
    fn hand_over(&mut self, host: u8, to: u8) -> Result<(), NoMemory> {
        self.step(host, Verb::ReadAsk(to))?;
        if let Answer::Seen(fence) = self.step(host, Verb::Close)? {
            if fence.target != Target::None {
                self.step(host, Verb::LookTarget)?;
                self.step(host, Verb::Drain)?;
            }
        }
        self.step(host, Verb::Grant(to))?;
        Ok(())
    }

    /// The replica asks for all regions, is granted these, puts its number at each and looks there.
    fn lead(&mut self, by: u8, members: &[u8], number: u32) -> Result<(), NoMemory> {
        for p in 0..self.replicas {
            self.step(by, Verb::Ask(p))?;
        }
        for p in members {
            self.hand_over(*p, by)?;
            self.step(by, Verb::Fence(*p))?;
        }
        for p in members {
            self.step(by, Verb::Min(*p))?;
        }
        for p in members {
            self.step(by, Verb::Enter(*p, Target::Min))?;
            self.step(by, Verb::PutMin(*p, number))?;
        }
        for p in members {
            self.step(by, Verb::Look(*p, 0))?;
        }
        Ok(())
    }

    /// The replica writes its row.
    fn write(&mut self, by: u8) -> Result<(), NoMemory> {
        for k in 0u8..12 {
            self.step(by, Verb::WriteRow(0, k, WORDS[usize::from(k)]))?;
        }
        Ok(())
    }

    /// The replica enters the first slot of the region, and puts the entry there.
    fn fill(&mut self, by: u8, p: u8, number: u32, value: u16) -> Result<(), NoMemory> {
        self.step(by, Verb::Enter(p, Target::Place(0)))?;
        self.step(by, Verb::PutSlot(p, 0, number, value))?;
        Ok(())
    }

    fn follow(&mut self, stretches: &[Stretch]) -> Result<(), NoMemory> {
        for stretch in stretches {
            match *stretch {
                Stretch::Lead(by, members, number) => self.lead(by, members, number)?,
                Stretch::Write(by) => self.write(by)?,
                Stretch::Fill(by, p, number, value) => self.fill(by, p, number, value)?,
                Stretch::Step(by, verb) => {
                    self.step(by, verb)?;
                }
            }
        }
        Ok(())
    }
}

/// The list of these stretches.
fn events_of(alloc: Global, config: &Config, stretches: &[Stretch]) -> Result<Vec<Event>, NoMemory>
    requires { IsConfig config.now }
{
    let mut course = Course::new(alloc, config)?;
    course.follow(stretches)?;
    Ok(course.events)
}

/// Whether the host of `p` once found this entry in its first slot.
fn was_shown(events: &[Event], p: u8, number: u32, value: u16) -> bool {
    let entry = Answer::Entry { number, value };
    let mut shown = false;
    for e in events {
        if e.by == p && e.verb == Verb::Look(p, 0) && e.answer == entry {
            shown = true;
        }
    }
    shown
}

/// What an entry is found as in the first slot of a region: the region, the number and the value.
type Sight = (u8, u32, u16);

/// A job, the stretches of a legal list, what is chosen at the first position, and what the hosts
/// once found in their first slots.
type Shown = (&'static str, &'static [Stretch], u16, &'static [Sight]);

/// False: a leadership ends when its replica grants its own region away. And false: after the
/// choice every put that lands has the chosen value.
const LEADER_GOES_ON_ELSEWHERE: Shown = (
    LONG_JOB,
    &[
        Stretch::Lead(0, &[0, 2], 8),
        Stretch::Write(0),
        Stretch::Step(0, Verb::Enter(2, Target::Place(0))),
        Stretch::Lead(1, &[1, 0], 9),
        Stretch::Write(1),
        Stretch::Fill(1, 1, 9, SECOND),
        Stretch::Fill(1, 0, 9, SECOND),
        Stretch::Step(0, Verb::PutSlot(2, 0, 8, FIRST)),
        Stretch::Step(2, Verb::Look(2, 0)),
    ],
    SECOND,
    &[(2, 8, FIRST)],
);

/// False: the number of the first choice is the least under which the value is chosen.
const CHOSEN_AGAIN_UNDER_A_SMALLER_NUMBER: Shown = (
    LONG_JOB,
    &[
        Stretch::Lead(0, &[0, 1], 8),
        Stretch::Write(0),
        Stretch::Fill(0, 1, 8, FIRST),
        Stretch::Step(1, Verb::Look(1, 0)),
        Stretch::Step(0, Verb::Enter(0, Target::Place(0))),
        Stretch::Lead(1, &[1, 2], 9),
        Stretch::Fill(1, 1, 9, FIRST),
        Stretch::Fill(1, 2, 9, FIRST),
        Stretch::Step(1, Verb::Look(1, 0)),
        Stretch::Step(2, Verb::Look(2, 0)),
        Stretch::Step(0, Verb::PutSlot(0, 0, 8, FIRST)),
        Stretch::Step(0, Verb::Look(0, 0)),
    ],
    FIRST,
    &[(1, 9, FIRST), (2, 9, FIRST), (1, 8, FIRST), (0, 8, FIRST)],
);

/// False: a number has one value at each position.
const NUMBER_WITH_TWO_VALUES: Shown = (
    LONG_JOB,
    &[
        Stretch::Lead(0, &[0, 1], 8),
        Stretch::Write(0),
        Stretch::Fill(0, 0, 8, FIRST),
        Stretch::Step(0, Verb::Look(0, 0)),
        Stretch::Lead(1, &[1, 2], 9),
        Stretch::Write(1),
        Stretch::Fill(1, 1, 9, SECOND),
        Stretch::Fill(1, 2, 9, SECOND),
        Stretch::Step(1, Verb::RaiseFuo(1, 1)),
        Stretch::Step(0, Verb::Fuo(1)),
        Stretch::Step(0, Verb::Look(1, 0)),
        Stretch::Fill(0, 0, 8, SECOND),
        Stretch::Step(0, Verb::Look(0, 0)),
    ],
    SECOND,
    &[(0, 8, FIRST), (0, 8, SECOND)],
);

/// False: once the chosen value stands in a log, it stays.
const CHOSEN_VALUE_IS_OVERWRITTEN: Shown = (
    JOB_OF_FIVE,
    &[
        Stretch::Lead(0, &[0, 1, 2], 8),
        Stretch::Write(0),
        Stretch::Fill(0, 0, 8, FIRST),
        Stretch::Fill(0, 1, 8, FIRST),
        Stretch::Lead(2, &[2, 3, 4], 10),
        Stretch::Write(2),
        Stretch::Fill(2, 2, 10, THIRD),
        Stretch::Lead(3, &[3, 0, 2], 11),
        Stretch::Step(3, Verb::Enter(0, Target::Place(0))),
        Stretch::Lead(1, &[1, 3, 4], 17),
        Stretch::Fill(1, 1, 17, FIRST),
        Stretch::Fill(1, 3, 17, FIRST),
        Stretch::Fill(1, 4, 17, FIRST),
        Stretch::Step(0, Verb::Look(0, 0)),
        Stretch::Step(3, Verb::PutSlot(0, 0, 11, THIRD)),
        Stretch::Step(0, Verb::Look(0, 0)),
    ],
    FIRST,
    &[(0, 8, FIRST), (0, 11, THIRD)],
);

/// The statements of `docs/AGREEMENT.md` that are false, and a list that shows each.
const UNTRUE: [(&str, Shown); 4] = [
    ("leader goes on elsewhere", LEADER_GOES_ON_ELSEWHERE),
    (
        "chosen again under a smaller number",
        CHOSEN_AGAIN_UNDER_A_SMALLER_NUMBER,
    ),
    ("number with two values", NUMBER_WITH_TWO_VALUES),
    ("chosen value is overwritten", CHOSEN_VALUE_IS_OVERWRITTEN),
];

/// Replica 0 leads and has written its row when replica 2 puts a value in the region of 0 under a
/// larger number.
const OVERTAKEN: [Stretch; 5] = [
    Stretch::Lead(0, &[0, 1], 8),
    Stretch::Write(0),
    Stretch::Lead(2, &[0, 2], 10),
    Stretch::Write(2),
    Stretch::Fill(2, 0, 10, THIRD),
];

/// A look of another machine of the leader at the first position that it doesn't know.
const LOOK_BESIDE: [Stretch; 1] = [Stretch::Step(0, Verb::Look(0, 0))];

/// The put that is due to the leader.
const DUE_PUT: [Stretch; 1] = [Stretch::Fill(0, 1, 8, FIRST)];

/// Whether a list is legal, and this is chosen at its first position.
fn chooses_first(
    alloc: Global,
    config: &Config,
    events: &[Event],
    chosen: u16,
) -> Result<bool, NoMemory>
    requires { IsConfig config.now }
{
    if is_legal(alloc, config, events)? {
        Ok(first_choice(alloc, config, events)? == Some(chosen))
    } else {
        Ok(false)
    }
}

/// Whether the hosts once found all these in their first slots.
fn were_shown(events: &[Event], sights: &[Sight]) -> bool {
    sights
        .iter()
        .all(|&(p, number, value)| was_shown(events, p, number, value))
}

/// Goes through the stretches, and says whether the list shows what it should.
fn is_shown(alloc: Global, shown: &Shown) -> Result<bool, Fail> {
    let (job, stretches, chosen, sights) = *shown;
    let config = config_of(alloc, job)?;
    let events = events_of(alloc, &config, stretches)?;
    let is_chosen = chooses_first(alloc, &config, events.as_slice(), chosen)?;
    Ok(is_chosen && were_shown(events.as_slice(), sights))
}

#[test]
fn lists_show_what_is_untrue(rt: HostRuntime) -> Result<(), Fail> {
    for (name, shown) in UNTRUE {
        assert!(rt; is_shown(rt.alloc(), &shown)?, "{name}");
    }
    Ok(())
}

/// Whether the stretches, one after the other, make a legal list.
fn is_allowed(alloc: Global, parts: &[&[Stretch]]) -> Result<bool, Fail> {
    let config = config_of(alloc, LONG_JOB)?;
    let mut course = Course::new(alloc, &config)?;
    for part in parts {
        course.follow(part)?;
    }
    Ok(is_legal(alloc, &config, course.events.as_slice())?)
}

/// False: what other machines of a replica look at leaves the put that is due to its leader
/// allowed.
#[test]
fn look_beside_forbids_due_put(rt: HostRuntime) -> Result<(), Fail> {
    assert!(rt; is_allowed(rt.alloc(), &[&OVERTAKEN, &DUE_PUT])?);
    assert!(rt; is_allowed(rt.alloc(), &[&OVERTAKEN, &LOOK_BESIDE])?);
    assert!(rt; !is_allowed(rt.alloc(), &[&OVERTAKEN, &LOOK_BESIDE, &DUE_PUT])?);
    Ok(())
}
