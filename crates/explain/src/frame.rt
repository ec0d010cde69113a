// The frames 01 to 06: how they are read, and what they say.
ghost use Rattle.std.specs.Prelude.{◌≡◌, ◌+◌, ◌*◌, ◌≤◌, ◌↔◌, length, IsOk, IfOk};
ghost use Rattle.explain.specs.declared.fields.TheConstants.{MAX_COUNT};

use crate::fields::{Fields, NoFrame, checked_count};
use crate::row::{Number, Row};
use std::fmt;

// What a frame is about, as its first byte says.
#[derive(Clone, Copy, Debug, PartialEq, Eq)]
pub enum Kind {
    Problem,
    Refutation,
    Point,
    Unfinished,
    Interpolant,
    Refusal,
}

impl TryFrom<u8> for Kind {
    type Error = NoFrame;

    ghost try_from_gives = { λ number r. IsOk r ↔ (1 ≤ number) × (number ≤ 6) };

    fn try_from(number: u8) -> Result<Self, NoFrame> {
        match number {
            1 => Ok(Kind::Problem),
            2 => Ok(Kind::Refutation),
            3 => Ok(Kind::Point),
            4 => Ok(Kind::Unfinished),
            5 => Ok(Kind::Interpolant),
            6 => Ok(Kind::Refusal),
            _ => Err(NoFrame),
        }
    }
}

// A frame. Its lists of numbers are left where they stand.
#[derive(Drop)]
pub enum Frame<'a> {
    // The rows of sides A and B, and the steps that a search may take.
    Problem {
        a: Side<'a>,
        b: Side<'a>,
        budget: u32,
    },

    // A numerator for each row, over one denominator.
    Refutation {
        steps: Steps,
        numerators: Numerators<'a>,
        denominator: i32,
    },

    // A point on which each row holds.
    Point {
        steps: Steps,
        values: Values<'a>,
    },

    // That the budget was used up.
    Unfinished {
        steps: Steps,
    },

    // What follows from side A, and contradicts side B.
    Interpolant(Fact<'a>),

    // Why there is no other answer, by its number. The steps are those of a refusal by `TOO_LARGE`.
    Refusal {
        number: u8,
        steps: Steps,
    },
}

// The number of the refusal that comes where numbers grew too large.
const TOO_LARGE: u8 = 8;

// How the frames of each kind are read, from their second byte on. That nothing stands after a frame is tested where these are called.
impl<'a> Frame<'a> {
    fn problem(fields: &mut Fields<'a>) -> Result<Self, NoFrame> {
        let variables = fields.count()?;
        let a_rows = usize::from(fields.byte()?);
        let b_rows = usize::from(fields.byte()?);
        checked_count(a_rows + b_rows)?;
        let budget = fields.unsigned()?;
        let a = Side::read(fields, a_rows, variables)?;
        let b = Side::read(fields, b_rows, variables)?;
        Ok(Frame::Problem { a, b, budget })
    }

    fn refutation(fields: &mut Fields<'a>) -> Result<Self, NoFrame> {
        let steps = Steps(fields.unsigned()?);
        let rows = fields.count()?;
        let denominator = fields.signed()?;
        let numerators = Numerators(fields.numbers(rows)?);
        Ok(Frame::Refutation {
            steps,
            numerators,
            denominator,
        })
    }

    fn point(fields: &mut Fields<'a>) -> Result<Self, NoFrame> {
        let steps = Steps(fields.unsigned()?);
        let variables = fields.count()?;
        let values = Values(fields.numbers(variables)?);
        Ok(Frame::Point { steps, values })
    }

    fn unfinished(fields: &mut Fields<'a>) -> Result<Self, NoFrame> {
        let steps = Steps(fields.unsigned()?);
        Ok(Frame::Unfinished { steps })
    }

    fn interpolant(fields: &mut Fields<'a>) -> Result<Self, NoFrame> {
        let variables = fields.count()?;
        let row = Row::new(fields.numbers(variables + 2)?);
        Ok(Frame::Interpolant(Fact(row)))
    }

    fn refusal(fields: &mut Fields<'a>) -> Result<Self, NoFrame> {
        let number = fields.byte()?;
        let steps = Steps(fields.unsigned()?);
        Ok(Frame::Refusal { number, steps })
    }
}

impl<'a> TryFrom<&'a [u8]> for Frame<'a> {
    type Error = NoFrame;

    fn try_from(bytes: &'a [u8]) -> Result<Self, NoFrame> {
        let mut fields = Fields::new(bytes);
        let frame = match Kind::try_from(fields.byte()?)? {
            Kind::Problem => Frame::problem(&mut fields)?,
            Kind::Refutation => Frame::refutation(&mut fields)?,
            Kind::Point => Frame::point(&mut fields)?,
            Kind::Unfinished => Frame::unfinished(&mut fields)?,
            Kind::Interpolant => Frame::interpolant(&mut fields)?,
            Kind::Refusal => Frame::refusal(&mut fields)?,
        };
        fields.end()?;
        Ok(frame)
    }
}

impl fmt::Display for Frame<'_> {
    fn fmt<W: fmt::Write>(&self, f: &mut fmt::Formatter<W>) -> fmt::Result {
        match self {
            Frame::Problem { a, b, budget } => write!(f, "A: {a}; B: {b}; budget {budget}"),
            Frame::Refutation {
                steps,
                numerators,
                denominator,
            } => write!(f, "refuted in {steps}: ({numerators})/{denominator}"),
            Frame::Point { steps, values } => write!(f, "solved in {steps}: {values}"),
            Frame::Unfinished { steps } => write!(f, "unfinished after {steps}"),
            Frame::Interpolant(fact) => write!(f, "{fact}"),
            Frame::Refusal {
                number: TOO_LARGE,
                steps,
            } => write!(f, "refused: {TOO_LARGE}, too large after {steps}"),
            Frame::Refusal { number, .. } => write!(f, "refused: {number}"),
        }
    }
}

// A count of steps.
#[derive(Clone, Copy)]
pub struct Steps(u32);

impl fmt::Display for Steps {
    fn fmt<W: fmt::Write>(&self, f: &mut fmt::Formatter<W>) -> fmt::Result {
        match self.0 {
            1 => write!(f, "1 step"),
            count => write!(f, "{count} steps"),
        }
    }
}

// The rows of one side of a problem, one after another.
#[derive(Clone, Copy)]
pub struct Side<'a> {
    numbers: &'a [[u8; 4]],
    row_len: usize,
    ghost row_len_min: { 2 ≤ row_len },
}

impl<'a> Side<'a> {
    fn read(fields: &mut Fields<'a>, rows: usize, variables: usize) -> Result<Self, NoFrame>
        requires rows { rows ≤ MAX_COUNT }
        requires variables { variables ≤ MAX_COUNT }
        ensures whole { IfOk result (λ side. length side.numbers.now ≡ rows * (variables + 2)) }
        ensures row_len { IfOk result (λ side. side.row_len ≡ variables + 2) }
    {
        let row_len = variables + 2;
        let numbers = fields.numbers(rows * row_len)?;
        Ok(Side { numbers, row_len })
    }
}

impl fmt::Display for Side<'_> {
    fn fmt<W: fmt::Write>(&self, f: &mut fmt::Formatter<W>) -> fmt::Result {
        if self.numbers.is_empty() {
            return f.write_str("nothing");
        }
        let rows = self.numbers.chunks_exact(self.row_len);
        f.write_joined(rows.map(Row::new), ", ")
    }
}

// The numerators of a refutation, in the order of the rows.
#[derive(Clone, Copy)]
pub struct Numerators<'a>(&'a [[u8; 4]]);

impl fmt::Display for Numerators<'_> {
    fn fmt<W: fmt::Write>(&self, f: &mut fmt::Formatter<W>) -> fmt::Result {
        f.write_joined(self.0.iter().map(|number| number.value()), ", ")
    }
}

// The values of the variables at a point.
#[derive(Clone, Copy)]
pub struct Values<'a>(&'a [[u8; 4]]);

impl fmt::Display for Values<'_> {
    fn fmt<W: fmt::Write>(&self, f: &mut fmt::Formatter<W>) -> fmt::Result {
        let values = (1..).zip(self.0).map(|(variable, number)| Assignment {
            variable,
            value: number.value(),
        });
        f.write_joined(values, ", ")
    }
}

// A variable with its value.
#[derive(Clone, Copy)]
struct Assignment {
    variable: u64,
    value: i64,
}

impl fmt::Display for Assignment {
    fn fmt<W: fmt::Write>(&self, f: &mut fmt::Formatter<W>) -> fmt::Result {
        write!(f, "x{} = {}", self.variable, self.value)
    }
}

// An interpolant. Without terms it is TRUE or FALSE where it is in normal form; any other is written as a row is.
#[derive(Clone, Copy)]
pub struct Fact<'a>(Row<'a, [u8; 8]>);

impl fmt::Display for Fact<'_> {
    fn fmt<W: fmt::Write>(&self, f: &mut fmt::Formatter<W>) -> fmt::Result {
        let row = &self.0;
        match (row.has_terms(), row.constant, row.modulus) {
            (false, 0, 0) => f.write_str("TRUE"),
            (false, 1, 0) => f.write_str("FALSE"),
            _ => write!(f, "{row}"),
        }
    }
}
