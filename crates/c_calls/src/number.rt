// The numbers by which C is told what a call came to.
ghost use Rattle.std.specs.Prelude.{◌≡◌};
ghost use Rattle.protocol.specs.Refusals.{outcome, refusal_number};
ghost use Rattle.c_calls.specs.Numbers.{number_of, value_or};

use protocol::Refusal;

pub(crate) fn refusal_number(refusal: Refusal) -> u32
    ensures { result ≡ refusal_number refusal }
{
    u32::from(refusal.number())
}

// 0, or the refusal's number.
pub(crate) fn answer(checked: Result<(), Refusal>) -> u32
    ensures { result ≡ number_of (outcome checked) }
{
    match checked {
        Ok(()) => 0,
        Err(refusal) => refusal_number(refusal),
    }
}

// 0 and how many bytes of lines there are, or the refusal's number and 0.
pub(crate) fn told(ran: Result<usize, Refusal>, lines_used: &mut usize) -> u32
    ensures number { result ≡ number_of (outcome ran) }
    ensures used { lines_used.new ≡ value_or 0 (outcome ran) }
{
    match ran {
        Ok(used) => {
            *lines_used = used;
            0
        }
        Err(refusal) => {
            *lines_used = 0;
            refusal_number(refusal)
        }
    }
}
