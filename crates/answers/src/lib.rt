// Refusals and their numbers: what the trait of a refusal is, and the number of an answer that is a Result.
// Promises: an answer's number is 0 if it is not a refusal, and otherwise the refusal's own number, which is never 0.
// Rule: each answer has its own numbers, which its crate names; definitions in specs/Answers.antt.
#![tactic(auto)]

ghost use Rattle.std.specs.Prelude.{◌≡◌, ◌≢◌, ℕ};
ghost use Rattle.answers.specs.Answers.{number_in};

// A refusal: what stands in the Err of an answer.
pub trait Refusal {
    ghost number_of: { Self → ℕ };

    fn number(self) -> u8
        ensures { result ≡ number_of self };

    // 0 says that nothing was refused.
    ghost never_zero: { (refusal : Self) → number_of refusal ≢ 0 };
}

// The number of an answer: 0, or the refusal's.
// promise: answers.1
pub fn number<T: Drop, E: Refusal>(answer: Result<T, E>) -> u8
    ensures { result ≡ number_in E.number_of answer }
{
    match answer {
        Ok(_) => 0,
        Err(refusal) => refusal.number(),
    }
}
