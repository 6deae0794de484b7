//! The leader, at its place in the listing.
ghost use Rattle.std.specs.Prelude.{vec_capacity, IfOk, IfSome, List, None, Some, [], false, get_or, if◌then◌else◌, length, nat_lt, not, ℕ, ◌%◌, ◌&&◌, ◌++◌, ◌<◌, ◌==◌, ◌||◌, ◌∷◌, ◌≡◌, ◌≤◌, ◌⊎◌, true};
ghost use Rattle.mu_model.specs.declared.event.Event.{Event};
ghost use Rattle.mu_model.specs.declared.event.Target.{Target as SomeTarget};
ghost use Rattle.mu_model.specs.declared.event.Verb.{Verb as SomeVerb};
ghost use Rattle.mu_model.specs.declared.config.Row.{Row as SomeRow};
ghost use Rattle.mu_model.specs.Growing.{with_more};
ghost use Rattle.mu_lead.specs.Growing.{rests};
ghost use Rattle.mu_lead.specs.Listing.{late_from};
ghost use Rattle.mu_model.specs.Allowed.{Allowed};
ghost use Rattle.mu_model.specs.Contents.{IsConfig, IsInSession, config_word, holds_all};
ghost use Rattle.mu_model.specs.Knowledge.{known as known_of};
ghost use Rattle.mu_model.specs.Parts.{IsPossible};
ghost use Rattle.mu_leadership.specs.Leadership.{StandsForLeadership};
ghost use Rattle.mu_knowledge.specs.KnownLog.{HoldsValues};
ghost use Rattle.mu_lead.specs.Beside.{leads_at};
ghost use Rattle.mu_lead.specs.declared.note.Note.{Note as SomeNote};
ghost use Rattle.mu_lead.specs.Journal.{IsWhere, PlacesNext};
ghost use Rattle.mu_lead.specs.Resigning.{IsTold, gives_up};
ghost use Rattle.mu_lead.specs.Standing.{HasHeeded, StandsFor, TakesNext, TellsFailed, TellsNext, verb_of};
ghost use Rattle.mu_lead.specs.Going.{begins_at, going_after};
ghost use Rattle.mu_lead.specs.Noting.{NotedNext};
ghost use Rattle.mu_lead.specs.Stepping.{MakesStep, is_calm as is_calm_verb};
ghost use Rattle.mu_lead.specs.Saying.{SaysNext, is_working as is_working_note};

use crate::batches::knows_all;
use crate::note::Note;
use crate::place::Place;
use crate::positions::{end_of, narrow};
use crate::recording::{write_head, write_reach, write_up, write_word};
use mu_knowledge::KnownLog;
use mu_leadership::Leadership;
use mu_model::{
    Answer, Config, Event, NoMemory, Target, Verb, count_of_rows, push_within, row_word,
};
use std::alloc::Global;

/// What a replica does as a leader: its place in the listing, and what it read and did on the way.
#[derive(Drop)]
pub struct Lead {
    /// What all replicas know at the start.
    pub config: Config,
    /// The replica.
    pub id: u8,
    /// Whether the scores name the replica itself.
    pub named: bool,
    /// Which replicas the scores hold to be failed: bit q for replica q.
    pub failed: u8,
    /// Whether a leadership began and was neither aborted nor given up.
    pub under_way: bool,
    /// The place in the listing.
    pub place: Place,
    /// What the replica's leaderships have come to.
    pub leading: Leadership,
    /// The number of the leadership, once it is picked.
    pub number: u32,
    /// Up to which position each region has what is known.
    pub up: [u64; 7],
    /// The greatest FUO of each region that was read or raised in the leadership.
    pub reach: [Option<u64>; 7],
    /// The head of each replica that was read last, over all leaderships.
    pub heads: [u64; 7],
    /// How many words of each row of its own are written.
    pub written: Vec<u8>,
}

impl Lead {
    /// A leader before any leadership. Takes all memory that it ever needs.
    pub fn new(alloc: Global, config: &Config, id: u8) -> Result<Lead, NoMemory>
        requires config { IsConfig config.now }
        requires inside { id < config.now.replicas }
        ensures stands { IfOk result (λ lead. StandsFor [] lead) }
        ensures config { IfOk result (λ lead. lead.config ≡ config.now) }
        ensures id { IfOk result (λ lead. lead.id ≡ id) }
        ensures placed { IfOk result (λ lead. IsWhere lead.config lead.id [] lead) }
        ensures unnamed { IfOk result (λ lead. lead.named ≡ false) }
        ensures idle { IfOk result (λ lead. lead.under_way ≡ false) }
    {
        Ok(Lead {
            config: config.try_clone()?,
            id,
            named: false,
            failed: 0,
            under_way: false,
            place: Place::Ask(0),
            leading: Leadership::new(id),
            number: 0,
            up: [0; 7],
            reach: [None; 7],
            heads: [0; 7],
            written: vec![in alloc; 0; count_of_rows(config)]?,
        })
    }

    /// Goes over to a configuration with one row more at the end. A leader at rest goes on with it, as
    /// after a commit; any other stays where it is.
    pub fn add_last(&mut self, config: Config, known: &[u16], log: &KnownLog)
        ghost mine: { List Event }
        requires stands { StandsFor mine self.old }
        requires possible { IsPossible self.old.config self.old.id mine }
        requires known { known.now ≡ known_of self.old.config self.old.id mine }
        requires good { IsConfig config }
        requires room { length self.old.written.items < vec_capacity self.old.written }
        ensures stands { (row : SomeRow) → config ≡ with_more self.old.config (row ∷ [])
            → HoldsValues config known.now log.now → StandsFor mine self.new }
        ensures config { self.new.config ≡ config }
        ensures id { self.new.id ≡ self.old.id }
        ensures others { self.new
            ≡ record self.old {
              config = config;
              place = self.new.place;
              written = self.new.written;
            } }
        ensures written { self.new.written.items ≡ self.old.written.items ++ 0 ∷ [] }
        ensures stays { rests self.old.place ≡ false → self.new.place ≡ self.old.place }
        ensures wakes { (row : SomeRow) → config ≡ with_more self.old.config (row ∷ [])
            → HoldsValues config known.now log.now → rests self.old.place ≡ true
            → self.new.place ≡ late_from config self.old.id mine self.old.heads 0 }
    {
        self.config = config;
        push_within(&mut self.written, 0);
        if is_resting(self.place) {
            self.place = self.late_from(0, known, log);
        }
    }

    /// Tells the leader which leader the scores name, and which replicas they say are failed: bit q
    /// for replica q.
    pub fn heed(&mut self, leader: u8, failed: u8) -> Note
        ghost mine: { List Event }
        requires { StandsFor mine self.old }
        ensures stands { StandsFor mine self.new }
        ensures named { self.new.named ≡ (leader == self.old.id) }
        ensures failed { self.new.failed ≡ failed }
        ensures heeded { TellsFailed self.old.config self.old.id mine failed
            → HasHeeded mine self.new }
        ensures resigned { result
            ≡ (if self.old.under_way && nat_lt leader self.old.id then SomeNote.Resigned leader
            else SomeNote.Working) }
        ensures due { nat_lt leader self.old.id ≡ false → (values : List ℕ)
            → verb_of self.new values ≡ verb_of self.old values }
        ensures going { self.new.under_way
            ≡ (self.old.under_way && not (nat_lt leader self.old.id)) }
        ensures told { IsTold self.old leader self.new }
        ensures rests { leads_at self.new.place
            ≡ (leads_at self.old.place && not (nat_lt leader self.old.id)) }
    {
        self.named = leader == self.id;
        self.failed = failed;
        let resigns = self.under_way && leader < self.id;
        if self.gives_up(leader) {
            self.under_way = false;
            self.place = Place::Ask(0);
        }
        if resigns {
            Note::Resigned { to: leader }
        } else {
            Note::Working
        }
    }

    /// Whether it gives up what it does if the scores name this replica.
    fn gives_up(&self, leader: u8) -> bool
        ensures { result ≡ gives_up self.now leader }
    {
        (self.under_way || self.is_leading()) && leader < self.id
    }

    /// Whether the replica leads: a leadership was confirmed, and isn't over or given up.
    pub fn is_leading(&self) -> bool
        ensures { result ≡ leads_at self.now.place }
    {
        match self.place {
            Place::Ask(_) | Place::Confirm(_, _) | Place::Evidence(_) => false,
            _ => true,
        }
    }

    /// The verb that is due: none if another replica is named, or if the listing has none. Inlined
    /// with the verb of the place: a turn looks at it at once, and a verb in memory is dear.
    #[inline(always)]
    #[tactic(auto, using(crate::proofs::Due::due_allowed))]
    pub fn due(&self, known: &[u16]) -> Option<Verb>
        ghost mine: { List Event }
        requires stands { StandsFor mine self.now }
        requires possible { IsPossible self.now.config self.now.id mine }
        requires known { known.now ≡ known_of self.now.config self.now.id mine }
        requires short { length mine < self.now.config.budget }
        ensures exact { result ≡ (if self.now.named then verb_of self.now known.now else None) }
        ensures allowed { IfSome result (λ verb. Allowed self.now.config self.now.id mine verb) }
    {
        if self.named { self.verb(known) } else { None }
    }

    /// The place of the ring that holds the position.
    pub(crate) fn place_of(&self, position: u64) -> Target
        ensures { 0 < self.now.config.ring
            → result ≡ SomeTarget.Place (position % self.now.config.ring) }
    {
        if self.config.ring == 0 {
            Target::Place(0)
        } else {
            Target::Place(narrow(position % u64::from(self.config.ring)))
        }
    }

    /// Up to which position the region has what is known.
    pub(crate) fn up_of(&self, p: u8) -> u64
        ensures { length self.now.up ≡ 7 → result ≡ get_or self.now.up p 0 }
    {
        if p < 7 { self.up[usize::from(p)] } else { 0 }
    }

    /// The word of row `j` that is to be written next.
    pub(crate) fn next_word(&self, j: u16) -> u8
        ensures { result ≡ get_or self.now.written.items j 12 }
    {
        match self.written.get(usize::from(j)) {
            Some(k) => *k,
            None => 12,
        }
    }

    /// The verb of the place.
    #[inline(always)]
    fn verb(&self, known: &[u16]) -> Option<Verb>
        ensures { (mine : List Event) → StandsFor mine self.now → length known.now < 65536
            → result ≡ verb_of self.now known.now }
    {
        let end = end_of(known);
        match self.place {
            Place::Ask(p) => Some(Verb::Ask(p)),
            Place::Confirm(_, p)
            | Place::FenceBehind(p, _)
            | Place::LateFence(p)
            | Place::Evidence(p) => Some(Verb::Fence(p)),
            Place::ReadMin(p) | Place::LateMin(p) => Some(Verb::Min(p)),
            Place::EnterMin(p) | Place::LateEnter(p) => Some(Verb::Enter(p, Target::Min)),
            Place::PutMin(p) | Place::LatePut(p) => Some(Verb::PutMin(p, self.number)),
            Place::ReadFuo(p, _) | Place::LateFuo(p) => Some(Verb::Fuo(p)),
            Place::Learn(p) => Some(Verb::Look(p, end)),
            Place::WidenBehind(p, _) | Place::RaiseBehind(p, _) => {
                Some(Verb::RaiseFuo(p, narrow(self.up_of(p))))
            }
            Place::LookBehind(p, _) => Some(Verb::Look(p, narrow(self.up_of(p)))),
            Place::EnterBehind(p, _) => Some(Verb::Enter(p, self.place_of(self.up_of(p)))),
            Place::PutBehind(p, _) => Some(self.put_behind(p, known)),
            Place::ReadHead(q, _) => Some(Verb::Head(q)),
            Place::Look(p, position, _, _) => Some(Verb::Look(p, position)),
            Place::Write(j, _, _) => Some(self.write_next(j)),
            Place::Enter(p, _) => Some(Verb::Enter(p, self.place_of(u64::from(end)))),
            Place::Put(p, offer) => Some(Verb::PutSlot(p, end, self.number, offer.value)),
            Place::Raise(p) => Some(Verb::RaiseFuo(p, end)),
            Place::Outrun | Place::Rest => None,
        }
    }

    /// The value that the region lacks next.
    pub(crate) fn lacked(&self, p: u8, known: &[u16]) -> u16
        ensures { length self.now.up ≡ 7 → get_or self.now.up p 0 < 65536
            → result ≡ get_or known.now (get_or self.now.up p 0) 0 }
    {
        match known.get(usize::from(narrow(self.up_of(p)))) {
            Some(v) => *v,
            None => 0,
        }
    }

    /// The put of what the region lacks.
    pub(crate) fn put_behind(&self, p: u8, known: &[u16]) -> Verb
        ensures { length self.now.up ≡ 7 → get_or self.now.up p 0 < 65536
            → result
            ≡ SomeVerb.PutSlot p (get_or self.now.up p 0) self.now.number
            (get_or known.now (get_or self.now.up p 0) 0) }
    {
        Verb::PutSlot(p, narrow(self.up_of(p)), self.number, self.lacked(p, known))
    }

    /// The write of the next word of row `j`.
    pub(crate) fn write_next(&self, j: u16) -> Verb
        ensures { get_or self.now.written.items j 12 < 12
            → result
            ≡ SomeVerb.WriteRow j (get_or self.now.written.items j 12)
            (config_word self.now.config j (get_or self.now.written.items j 12)) }
    {
        let k = self.next_word(j);
        let word = if k < 12 {
            row_word(&self.config, j, k)
        } else {
            0
        };
        Verb::WriteRow(j, k, word)
    }

    /// Takes the answer to the verb that was due. `log` is what the replica knows, `known` its
    /// values.
    #[inline(always)]
    pub fn take(&mut self, verb: Verb, answer: Answer, known: &[u16], log: &KnownLog) -> Note
        ghost mine: { List Event }
        requires stands { StandsFor mine self.old }
        requires heeded { HasHeeded mine self.old }
        requires due { verb_of self.old (known_of self.old.config self.old.id mine) ≡ Some verb }
        ensures stands { HoldsValues self.old.config known.now log.now
            → TakesNext mine self.old known.now answer self.new }
        ensures placed { HoldsValues self.old.config known.now log.now
            → PlacesNext mine self.old known.now answer self.new }
        ensures tells { TellsNext mine self.old known.now answer result }
        ensures config { self.new.config ≡ self.old.config }
        ensures id { self.new.id ≡ self.old.id }
        ensures named { self.new.named ≡ self.old.named }
        ensures failed { self.new.failed ≡ self.old.failed }
        ensures says { HoldsValues self.old.config known.now log.now
            → SaysNext mine self.old known.now answer result }
        ensures noted { HoldsValues self.old.config known.now log.now
            → NotedNext mine self.old known.now answer result }
        ensures going { self.new.under_way
            ≡ going_after (begins_at self.old.place || self.old.under_way) result }
    {
        let note = self.step(verb, answer, known, log);
        with_idle(&self.config, note, log)
    }

    /// Makes the step of the listing. The note doesn't tell yet that all commands are known.
    #[inline(always)]
    fn step(&mut self, verb: Verb, answer: Answer, known: &[u16], log: &KnownLog) -> Note
        ensures { MakesStep self.old known.now log.now verb answer self.new result }
    {
        match self.place {
            Place::Write(j, last, offer) => {
                self.take_word(j, last, offer);
                Note::Working
            }
            _ => self.other_step(verb, answer, known, log),
        }
    }

    /// Makes any step: tells the leaderships, writes the tables, and goes to the place that follows.
    #[inline(always)]
    fn other_step(&mut self, verb: Verb, answer: Answer, known: &[u16], log: &KnownLog) -> Note
        ensures { MakesStep self.old known.now log.now verb answer self.new result }
    {
        tell(&mut self.leading, self.id, verb, answer);
        let commits = self.commits(answer);
        write_up(&mut self.up, &self.leading, verb, answer, known, commits);
        write_reach(&mut self.reach, verb, answer);
        write_head(&mut self.heads, verb, answer);
        write_word(&mut self.written, verb);
        let note = self.note(answer, known, commits);
        let next = self.next_place(answer, known, log);
        self.number = self.next_number();
        self.under_way = goes_on(begins(self.place, self.under_way), note);
        self.place = next;
        note
    }
}

/// Whether the place is that of rest.
fn is_resting(place: Place) -> bool
    ensures { result ≡ rests place }
{
    match place {
        Place::Rest => true,
        _ => false,
    }
}

/// Tells the leaderships of the answer, if they rest on the verb.
fn tell(leading: &mut Leadership, id: u8, verb: Verb, answer: Answer)
    ensures { (c : Config) → (mine : List Event) → c.replicas ≤ 7
        → IsPossible c id (record { by = id; verb = verb; answer = answer } ∷ mine)
        → StandsForLeadership id mine leading.old
        → StandsForLeadership id (record { by = id; verb = verb; answer = answer } ∷ mine)
        leading.new }
{
    if !is_calm(verb) {
        leading.take(
            id,
            &Event {
                by: id,
                verb,
                answer,
            },
        );
    }
}

/// Whether the verb changes nothing of a leadership but what is looked at, read and raised.
fn is_calm(verb: Verb) -> bool
    ensures { result ≡ is_calm_verb verb }
{
    match verb {
        Verb::Ask(_)
        | Verb::Fence(_)
        | Verb::Min(_)
        | Verb::Enter(_, _)
        | Verb::PutMin(_, _)
        | Verb::PutSlot(_, _, _, _) => false,
        _ => true,
    }
}

/// The note, but that all commands are known, if nothing else is to be said.
fn with_idle(config: &Config, note: Note, log: &KnownLog) -> Note
    ensures kind { (result ≡ note) ⊎ ((result ≡ SomeNote.Idle) × (note ≡ SomeNote.Working)) }
    ensures all { (values : List ℕ) → HoldsValues config.now values log.now → IsConfig config.now
        → IsInSession config.now values → note ≡ SomeNote.Working
        → result ≡ (if holds_all config.now values then SomeNote.Idle else SomeNote.Working) }
{
    if is_working(note) && knows_all(config, log) {
        Note::Idle
    } else {
        note
    }
}

/// Whether the note says nothing.
fn is_working(note: Note) -> bool
    ensures { result ≡ is_working_note note }
{
    match note {
        Note::Working => true,
        _ => false,
    }
}

/// Whether a leadership that was under way, or not, is after the verb of the place.
fn begins(place: Place, was: bool) -> bool
    ensures { result ≡ (begins_at place || was) }
{
    match place {
        Place::Ask(p) => p == 0 || was,
        _ => was,
    }
}

/// Whether a leadership that was under way, or not, still is after the note.
fn goes_on(was: bool, note: Note) -> bool
    ensures { result ≡ going_after was note }
{
    match note {
        Note::Aborted(_) => false,
        _ => was,
    }
}
