//! What the program's words ask for.
ghost use Rattle.std.specs.Prelude.{◌≡◌, ◌↔◌, Some, length};

use crate::call::Call;

/// What is to be measured.
#[derive(Clone, Copy, Debug, PartialEq, Eq)]
pub(crate) enum Plan {
    Nothing,
    /// Each call by 1, 2 and 4 callers.
    All,
    One { call: Call, callers: u32 },
}

/// The plan of the words; none where they are not understood.
pub(crate) fn plan_of(words: &[String]) -> Option<Plan>
    ensures nothing { (result ≡ Some Plan.Nothing) ↔ (length words.now ≡ 0) }
{
    match words {
        [] => Some(Plan::Nothing),
        [word] if word.as_str() == "ops" => Some(Plan::All),
        [call, callers] => {
            let call = Call::named(call.as_str())?;
            let callers = callers.as_str().parse::<u32>().ok()?;
            Some(Plan::One { call, callers })
        }
        _ => None,
    }
}
