// What is asked of a leaf, and what a leaf without a predicate is answered.
ghost use Rattle.std.specs.Prelude.{◌≡◌};
ghost use Rattle.ask.specs.LeafAnswers.{without_predicate};

use projection::question::Question;

// Of a row, or of a partition value under a question.
#[derive(Clone, Copy, PartialEq, Eq)]
pub enum Asked {
    Row,
    Part(Question),
}

// Whether partition values are accepted where a leaf has no predicate.
pub fn without_predicate(question: Question) -> bool
    ensures { result ≡ without_predicate question }
{
    question == Question::Inclusive
}
