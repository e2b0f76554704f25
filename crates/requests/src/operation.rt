// "1 place .. 2 remove .. 3 pin .. 4 exchange"; order 2: "New operation 6 .. sets a block". 5 is the program's clear, which a run does not know.
ghost use Rattle.std.specs.Prelude.{◌≡◌};
ghost use Rattle.rules.specs.Requests.{by_rule, makes_new, is_remove, needs_old, has_size, kind_asked};
ghost use Rattle.table.specs.Record.{kind_byte};
ghost use Rattle.requests.specs.Operation.{Named, OfAny};

use rules::Refusal;
use table::Kind;

#[derive(Clone, Copy, Debug, PartialEq, Eq)]
pub enum Operation {
    Place,
    Remove,
    Pin,
    Exchange,
    Set,
}

// 11: operation not 1..4, and not 6.
impl TryFrom<u8> for Operation {
    type Error = Refusal;

    ghost try_from_gives = { Named };

    fn try_from(number: u8) -> Result<Self, Refusal> {
        match number {
            1 => Ok(Operation::Place),
            2 => Ok(Operation::Remove),
            3 => Ok(Operation::Pin),
            4 => Ok(Operation::Exchange),
            6 => Ok(Operation::Set),
            _ => Err(Refusal::UnknownOperation),
        }
    }
}

impl Operation {
    // By a rule.
    pub(crate) fn is_by_rule(self) -> bool
        ensures { OfAny by_rule self result }
    {
        matches!(self, Operation::Place | Operation::Exchange)
    }

    // It puts in a module, or a block, under an id of its own.
    pub(crate) fn makes_new(self) -> bool
        ensures { OfAny makes_new self result }
    {
        matches!(self, Operation::Place | Operation::Pin | Operation::Set)
    }

    pub(crate) fn is_remove(self) -> bool
        ensures { OfAny is_remove self result }
    {
        matches!(self, Operation::Remove)
    }

    // It needs the module of its id.
    pub(crate) fn needs_old(self) -> bool
        ensures { OfAny needs_old self result }
    {
        matches!(self, Operation::Remove | Operation::Exchange)
    }

    pub(crate) fn has_size(self) -> bool
        ensures { OfAny has_size self result }
    {
        !matches!(self, Operation::Remove)
    }

    // The kind of what it puts in: "0 a module, 1 a block".
    pub(crate) fn kind(self) -> Kind
        ensures { OfAny kind_asked self (kind_byte result) }
    {
        match self {
            Operation::Set => Kind::Block,
            _ => Kind::Module,
        }
    }
}
