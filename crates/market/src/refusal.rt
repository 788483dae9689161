// The refusal table and what a refusal says.
ghost use Rattle.std.specs.Prelude.{◌≡◌};
ghost use Rattle.market.specs.Refusals.{number_cause, refusal, layer_number, refused_call};

use number::NumberCause;

// Why a file or a call is refused; the causes are numbered from 1 on, in this order.
#[derive(Clone, Copy, Debug, PartialEq)]
pub enum Cause {
    // the file ends where a number or a reference wants a byte
    Ends = 1,
    // a number has more bytes than it needs
    Padded,
    // a number is above 4,294,967,295
    Large,
    // an unknown version or entry number
    Unknown,
    // a field outside its range
    OutOfRange,
    // a reference byte outside 32 to 126
    BadText,
    // the writer's buffer is too short
    NoRoom,
}

// Which layer refuses: 1 the numbers of a file, 2 its entries.
#[derive(Clone, Copy, Debug, PartialEq)]
pub enum Layer {
    Numbers = 1,
    Entries,
}

impl From<Layer> for u32 {
    ghost from_gives = { λ layer n. n ≡ layer_number layer };

    fn from(layer: Layer) -> u32 {
        layer as u32
    }
}

impl From<Cause> for u32 {
    ghost from_gives = { λ cause n. n ≡ (refusal cause).0 };

    fn from(cause: Cause) -> u32 {
        cause as u32
    }
}

impl From<NumberCause> for Cause {
    ghost from_gives = { λ cause r. r ≡ number_cause cause };

    fn from(cause: NumberCause) -> Cause {
        match cause {
            NumberCause::Ends => Cause::Ends,
            NumberCause::Padded => Cause::Padded,
            NumberCause::Large => Cause::Large,
        }
    }
}

impl Cause {
    // The layer that refuses for this cause.
    pub fn layer(self) -> Layer
        ensures { result ≡ (refusal self).1 }
    {
        match self {
            Cause::Ends | Cause::Padded | Cause::Large => Layer::Numbers,
            _ => Layer::Entries,
        }
    }
}

// A refusal: its cause, the entry (0 is the opening) and the byte where the faulty part begins. The cause tells the
// layer.
#[derive(Clone, Copy, Debug, PartialEq)]
pub struct Fault {
    pub cause: Cause,
    pub entry: usize,
    pub place: usize,
}

impl Fault {
    // The layer that refuses.
    pub fn layer(self) -> Layer
        ensures { result ≡ (refusal self.cause).1 }
    {
        self.cause.layer()
    }

    // The refusal of a call that has no file: entry 0, place 0.
    pub fn of_call(cause: Cause) -> Fault
        ensures { result ≡ refused_call cause }
    {
        Fault {
            cause,
            entry: 0,
            place: 0,
        }
    }
}
