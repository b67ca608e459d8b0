// The documents' numbers for the answers.
ghost use Rattle.std.specs.Prelude.{◌≡◌};
ghost use Rattle.store.specs.Answer.{answer_number};

use crate::Answer;

// Document 01: "0 or more is done [..], −n is refusal n".
pub fn number(answer: Answer) -> i32
    ensures { result ≡ answer_number answer }
{
    match answer {
        Ok(n) => i32::from(n),
        Err(refusal) => -(refusal as i32),
    }
}
