//! Laws that show that the grammar is what it should be. Each function does nothing: its clause is the law.

ghost use Rattle.script.specs.Again.{NamesAgain, TypesAgain};
ghost use Rattle.script.specs.Script.{EmptyLines, OneCommand, OneScript, TwoAnswers, TwoLines};

/// A line spells one command.
pub fn one_command()
    ensures { OneCommand }
{}

/// A script has one list of commands and bad lines.
pub fn one_script()
    ensures { OneScript }
{}

/// What is printed as a name or a type spells it.
pub fn printed_again()
    ensures names { NamesAgain }
    ensures types { TypesAgain }
{}

/// Worked scripts and answers.
pub fn examples()
    ensures two_lines { TwoLines }
    ensures empty_lines { EmptyLines }
    ensures two_answers { TwoAnswers }
{}
