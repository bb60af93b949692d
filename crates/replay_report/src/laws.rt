//! What the counts of a replay say of its rows.
ghost use Rattle.std.specs.Prelude.{List};
ghost use Rattle.std.specs.List.{AllByRecursion};
ghost use Rattle.replay_report.specs.declared.answer.Answer.{Answer};
ghost use Rattle.replay_report.specs.Answers.{IsAgreement};
ghost use Rattle.replay_report.specs.Counting.{AllAgree, tally_of};

/// If all agree by the counts of rows, each of the rows agrees, however many there are.
pub fn counts_that_agree_are_of_rows_that_agree()
    ensures { (answers : List Answer) → AllAgree (tally_of answers) → AllByRecursion IsAgreement answers }
{}
