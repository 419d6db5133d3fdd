// Whether an answer is final: a refusal or a report ends a run.
ghost use Rattle.std.specs.Prelude.{◌≡◌};
ghost use Rattle.answers.specs.Views.{answer_view};
ghost use Rattle.pieces.specs.Run.{is_final};

use answers::Answer;

pub fn is_final(answer: Answer) -> bool
    ensures { result ≡ is_final (answer_view answer) }
{
    answer != Answer::Accepted
}
