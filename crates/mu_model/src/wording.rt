//! What is said of each point of what is allowed that a verb doesn't meet.
ghost use Rattle.std.specs.Prelude.{◌≡◌, ◌≤◌};
ghost use Rattle.mu_model.specs.Points.{told_of};
ghost use Rattle.mu_model.specs.Sentences.{parts_of, sentence_room};

use crate::reason::Reason;
use crate::sentence::{Sentence, Value};

// What is said of each point, with a # for each value.
const BUDGET: &[u8] = b"all # steps of the budget are made";

const NO_REPLICA: &[u8] = b"there is no replica #";

const NO_REGION: &[u8] = b"there is no region #";

const OUT_OF_TURN: &[u8] = b"regions are asked in turn from 0 on, and region # does not follow #";

const NOT_BEGUN: &[u8] = b"no leadership has begun: region 0 was not asked yet";

const NOT_GRANTED: &[u8] =
    b"no grant is noted: the last fence seen of region # in the leadership does not name this \
      replica as the owner, or is closing";

const OVER: &[u8] =
    b"the leadership is over: a put missed, an entering was lost, or it read a changed fence or a \
      greater minimum";

const NO_TARGET: &[u8] = b"an enter names a word";

const MINIMUM_UNREAD: &[u8] = b"min of region # was not read since its grant was seen";

const UNCONFIRMED: &[u8] =
    b"min was not read yet under the noted grants of a majority with the own region";

const NOT_MEMBER: &[u8] = b"region # is no member: no putmin landed there in the leadership";

const NO_PLACE: &[u8] = b"the ring has no place #";

const NOT_ENTERED_FOR_MINIMUM: &[u8] = b"region # is not entered for min but for #";

const BELOW_MINIMUM: &[u8] = b"number # is below the min that was read, #";

const NOT_THE_OWN_NUMBER: &[u8] = b"number # is not the one to put, #: that of the leadership";

const NOT_THE_LEAST_NUMBER: &[u8] =
    b"number # is not the one to put, #: the least from 8 on that is the replica modulo 8 and \
      above # read and # put";

const NO_POSITION: &[u8] = b"there is no position #: the last one is #";

const NOT_READABLE: &[u8] = b"region # is not the own one, and no grant of it is noted";

const OUT_OF_REACH: &[u8] =
    b"no fuo of region # was read or raised in the leadership from which the ring reaches \
      position #";

const NO_QUORUM: &[u8] =
    b"the regions where a putmin landed in the leadership are no majority with the own one";

const OTHER_NUMBER: &[u8] = b"number # is not that of the leadership, #";

const NOT_ENTERED: &[u8] = b"region # is not entered for place # but for #";

const NOT_LOOKED: &[u8] =
    b"position # of region # was not looked at before the enter, after the region became a member \
      and after the last put in that place";

const BEHIND: &[u8] =
    b"region # is not known to have position #: put the known value there first, or read its fuo";

const NOT_NEXT: &[u8] = b"position # holds another value or is not the next: # positions are known";

const NO_ROOM: &[u8] =
    b"no room for position # and # more: the last head of replica # that was read is #";

const PAST_SEEN: &[u8] = b"a look at position # of region #, a member, was past in the leadership";

const OTHER_FIRST: &[u8] = b"value # is not the one put first at position # in the leadership, #";

const JOINED_SINCE: &[u8] = b"a region became a member after the first put at position #";

const MEMBER_NOT_LOOKED: &[u8] =
    b"region # is a member, and was not looked at in position # since the last region became one";

const OTHER_ACCEPTED: &[u8] =
    b"value # is not that of the entry of the largest number that the looks at position # show: \
      entry # #";

const NO_BATCH: &[u8] =
    b"value # stands for no batch of the job, and for no mark that may be offered";

const NOT_OWN: &[u8] = b"value # is not 4096 times this replica and a row";

const NOT_WRITTEN: &[u8] =
    b"word # of row # is not written, and value # stands for all words of its rows";

const NOT_NEXT_OF_CLIENT: &[u8] =
    b"value # begins with command # of its client, of which # are known";

const NOT_KNOWN: &[u8] =
    b"only # positions are known, fewer than #: put the value at every member first, or look at \
      it below a fuo";

const NOT_FILLED: &[u8] = b"position # of region # is not known to be filled";

const OWN_BEAT: &[u8] = b"replica # does not read its own beats";

const NO_ROW: &[u8] = b"the job has no row #";

const NO_WORD: &[u8] = b"a row has the words 0 to 11, and no word #";

const OTHER_WORD: &[u8] = b"word # of row #, which is command #.# of the job, is # and not #";

const WRITTEN: &[u8] = b"word # of row # is written already";

const NO_WRITER: &[u8] =
    b"value # names no replica of the job: it is 4096 times a replica, and a row";

const NO_ROW_WORD: &[u8] =
    b"only # entries are applied, fewer than #: word # of value # is neither written nor read";

const NOT_APPLIED: &[u8] =
    b"only # entries are applied, fewer than #: put the next one at every member first, or look \
      at it below a fuo";

const NOT_REACHED: &[u8] = b"no fuo of the own region of at least # was read or raised";

const CLOSING: &[u8] = b"the fence is closed already";

const NOBODY_WAITS: &[u8] = b"no replica but the owner has an ask that was read and is not served";

const NOTHING_TO_DRAIN: &[u8] = b"the fence is not closed, or named nothing to drain when it was";

const TARGET_LOOKED: &[u8] = b"looktarget came already since the close";

const TARGET_NOT_LOOKED: &[u8] = b"no looktarget came since the close";

const DRAINED: &[u8] = b"drain came already since the close";

const NOT_CLOSING: &[u8] = b"the fence is not closed: close comes first";

const NOT_DRAINED: &[u8] = b"the word that the closed fence named is not drained";

const NOT_LEAST_WAITING: &[u8] =
    b"replica # is not the least whose ask was read and is not served: that is #";

impl Reason {
    /// The point that isn't met, as a sentence of at most 156 bytes.
    pub fn sentence(self) -> Sentence
        ensures is { parts_of result ≡ told_of self }
        ensures room { sentence_room result ≤ 156 }
    {
        match self {
            Reason::Budget { steps } => Sentence::One(BUDGET, Value::Wide(steps)),
            Reason::NoReplica { replica } => Sentence::One(NO_REPLICA, Value::Byte(replica)),
            Reason::NoRegion { region } => Sentence::One(NO_REGION, Value::Byte(region)),
            Reason::OutOfTurn { region, asked } => Sentence::Two(
                OUT_OF_TURN,
                Value::Byte(region),
                Value::Region(asked),
            ),
            Reason::NotBegun => Sentence::Plain(NOT_BEGUN),
            Reason::NotGranted { region } => Sentence::One(NOT_GRANTED, Value::Byte(region)),
            Reason::Over => Sentence::Plain(OVER),
            Reason::NoTarget => Sentence::Plain(NO_TARGET),
            Reason::MinimumUnread { region } => Sentence::One(MINIMUM_UNREAD, Value::Byte(region)),
            Reason::Unconfirmed => Sentence::Plain(UNCONFIRMED),
            Reason::NotMember { region } => Sentence::One(NOT_MEMBER, Value::Byte(region)),
            Reason::NoPlace { place } => Sentence::One(NO_PLACE, Value::Short(place)),
            Reason::NotEnteredForMinimum { region, entered } => Sentence::Two(
                NOT_ENTERED_FOR_MINIMUM,
                Value::Byte(region),
                Value::Entered(entered),
            ),
            Reason::BelowMinimum { number, minimum } => Sentence::Two(
                BELOW_MINIMUM,
                Value::Wide(number),
                Value::Long(minimum),
            ),
            Reason::NotTheNumber {
                number,
                own: Some(_),
                read: _,
                put: _,
                right,
            } => Sentence::Two(NOT_THE_OWN_NUMBER, Value::Wide(number), Value::Own(right)),
            Reason::NotTheNumber {
                number,
                own: None,
                read,
                put,
                right,
            } => Sentence::Four(
                NOT_THE_LEAST_NUMBER,
                Value::Wide(number),
                Value::Own(right),
                Value::Long(read),
                Value::Wide(put),
            ),
            Reason::NoPosition { position, last } => Sentence::Two(
                NO_POSITION,
                Value::Short(position),
                Value::Count(last),
            ),
            Reason::NotReadable { region } => Sentence::One(NOT_READABLE, Value::Byte(region)),
            Reason::OutOfReach { region, position } => Sentence::Two(
                OUT_OF_REACH,
                Value::Byte(region),
                Value::Short(position),
            ),
            Reason::NoQuorum => Sentence::Plain(NO_QUORUM),
            Reason::OtherNumber { number, own } => Sentence::Two(
                OTHER_NUMBER,
                Value::Wide(number),
                Value::Own(own),
            ),
            Reason::NotEntered {
                region,
                place,
                entered,
            } => Sentence::Three(
                NOT_ENTERED,
                Value::Byte(region),
                Value::Short(place),
                Value::Entered(entered),
            ),
            Reason::NotLooked { region, position } => Sentence::Two(
                NOT_LOOKED,
                Value::Short(position),
                Value::Byte(region),
            ),
            Reason::Behind { region, position } => Sentence::Two(
                BEHIND,
                Value::Byte(region),
                Value::Short(position),
            ),
            Reason::NotNext { position, known } => Sentence::Two(
                NOT_NEXT,
                Value::Short(position),
                Value::Count(known),
            ),
            Reason::NoRoom {
                position,
                free,
                replica,
                head,
            } => Sentence::Four(
                NO_ROOM,
                Value::Short(position),
                Value::Byte(free),
                Value::Byte(replica),
                Value::Long(head),
            ),
            Reason::PastSeen { region, position } => Sentence::Two(
                PAST_SEEN,
                Value::Short(position),
                Value::Byte(region),
            ),
            Reason::OtherFirst {
                position,
                value,
                first,
            } => Sentence::Three(
                OTHER_FIRST,
                Value::Short(value),
                Value::Short(position),
                Value::Short(first),
            ),
            Reason::JoinedSince { position } => Sentence::One(JOINED_SINCE, Value::Short(position)),
            Reason::MemberNotLooked { region, position } => Sentence::Two(
                MEMBER_NOT_LOOKED,
                Value::Byte(region),
                Value::Short(position),
            ),
            Reason::OtherAccepted {
                position,
                value,
                number,
                accepted,
            } => Sentence::Four(
                OTHER_ACCEPTED,
                Value::Short(value),
                Value::Short(position),
                Value::Wide(number),
                Value::Short(accepted),
            ),
            Reason::NoBatch { value } => Sentence::One(NO_BATCH, Value::Short(value)),
            Reason::NotOwn { value } => Sentence::One(NOT_OWN, Value::Short(value)),
            Reason::NotWritten { value, row, word } => Sentence::Three(
                NOT_WRITTEN,
                Value::Byte(word),
                Value::Short(row),
                Value::Short(value),
            ),
            Reason::NotNextOfClient {
                value,
                number,
                known,
            } => Sentence::Three(
                NOT_NEXT_OF_CLIENT,
                Value::Short(value),
                Value::Short(number),
                Value::Short(known),
            ),
            Reason::NotKnown { fuo, known } => Sentence::Two(
                NOT_KNOWN,
                Value::Count(known),
                Value::Short(fuo),
            ),
            Reason::NotFilled { region, position } => Sentence::Two(
                NOT_FILLED,
                Value::Short(position),
                Value::Byte(region),
            ),
            Reason::OwnBeat { replica } => Sentence::One(OWN_BEAT, Value::Byte(replica)),
            Reason::NoRow { row } => Sentence::One(NO_ROW, Value::Short(row)),
            Reason::NoWord { word } => Sentence::One(NO_WORD, Value::Byte(word)),
            Reason::OtherWord {
                row,
                word,
                given,
                spelled,
                client,
                number,
            } => Sentence::Six(
                OTHER_WORD,
                Value::Byte(word),
                Value::Short(row),
                Value::Byte(client),
                Value::Short(number),
                Value::Long(spelled),
                Value::Long(given),
            ),
            Reason::Written { row, word } => Sentence::Two(
                WRITTEN,
                Value::Byte(word),
                Value::Short(row),
            ),
            Reason::NoWriter { value } => Sentence::One(NO_WRITER, Value::Short(value)),
            Reason::NoRowWord {
                head,
                applied,
                value,
                word,
            } => Sentence::Four(
                NO_ROW_WORD,
                Value::Count(applied),
                Value::Short(head),
                Value::Byte(word),
                Value::Short(value),
            ),
            Reason::NotApplied { head, applied } => Sentence::Two(
                NOT_APPLIED,
                Value::Count(applied),
                Value::Short(head),
            ),
            Reason::NotReached { head } => Sentence::One(NOT_REACHED, Value::Short(head)),
            Reason::Closing => Sentence::Plain(CLOSING),
            Reason::NobodyWaits => Sentence::Plain(NOBODY_WAITS),
            Reason::NothingToDrain => Sentence::Plain(NOTHING_TO_DRAIN),
            Reason::TargetLooked => Sentence::Plain(TARGET_LOOKED),
            Reason::TargetNotLooked => Sentence::Plain(TARGET_NOT_LOOKED),
            Reason::Drained => Sentence::Plain(DRAINED),
            Reason::NotClosing => Sentence::Plain(NOT_CLOSING),
            Reason::NotDrained => Sentence::Plain(NOT_DRAINED),
            Reason::NotLeastWaiting { replica, least } => Sentence::Two(
                NOT_LEAST_WAITING,
                Value::Byte(replica),
                Value::Region(least),
            ),
        }
    }
}
