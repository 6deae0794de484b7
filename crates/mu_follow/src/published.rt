//! The heads that a replica knows: how far each has applied.
ghost use Rattle.std.specs.Prelude.{List, [], ℕ, ◌<◌, ◌∷◌, ◌≡◌};
ghost use Rattle.mu_model.specs.declared.event.Event.{Event};
ghost use Rattle.mu_model.specs.Regions.{region_head};
ghost use Rattle.mu_follow.specs.Published.{HearsHeads, HoldsPublished, head_heard};

use mu_model::{Answer, Event, Verb};

/// The replica's own head, and the heads of the others as they were read last.
#[derive(Drop)]
pub struct Published {
    /// The replica's own head.
    own: u16,
    /// The heads read last, each if one was read.
    read: [Option<u64>; 7],
}

/// The replica's own head after the event.
fn own_after(held: u16, r: u8, event: &Event) -> u16
    ensures { (mine : List Event) → held ≡ region_head r mine
        → result ≡ region_head r (event.now ∷ mine) }
{
    match event.verb {
        Verb::RaiseHead(h) => { if event.by == r { h.max(held) } else { held } }
        _ => held,
    }
}

/// Takes the event at the head that is read.
fn note_read(read: &mut [Option<u64>; 7], r: u8, event: &Event)
    ensures { (mine : List Event) → HearsHeads r mine read.old
        → HearsHeads r (event.now ∷ mine) read.new }
{
    if let (Verb::Head(q), Answer::Number(head)) = (event.verb, event.answer) {
        if event.by == r && q < 7 {
            read[usize::from(q)] = Some(head);
        }
    }
}

impl Published {
    /// A state with nothing applied and nothing read.
    pub fn new() -> Published
        ensures { (r : ℕ) → HoldsPublished r [] result }
    {
        Published {
            own: 0,
            read: [None; 7],
        }
    }

    /// Takes the next event of `r`.
    pub fn note(&mut self, r: u8, event: &Event)
        ensures { (mine : List Event) → HoldsPublished r mine self.old
            → HoldsPublished r (event.now ∷ mine) self.new }
    {
        self.own = own_after(self.own, r, event);
        note_read(&mut self.read, r, event);
    }

    /// The replica's own head.
    pub fn own_head(&self) -> u16
        ensures { (r : ℕ) → (mine : List Event) → HoldsPublished r mine self.now
            → result ≡ region_head r mine }
    {
        self.own
    }

    /// The head of `q` that was read last.
    pub fn of(&self, q: u8) -> Option<u64>
        ensures { (r : ℕ) → (mine : List Event) → q < 7 → HoldsPublished r mine self.now
            → result ≡ head_heard r q mine }
    {
        match self.read.get(usize::from(q)) {
            Some(head) => *head,
            None => None,
        }
    }
}
