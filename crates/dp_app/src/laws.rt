//! What holds of every run.
ghost use Rattle.std.specs.Prelude.{◌≡◌, ◌≤◌, List, None, Option, Result, ℕ, length};
ghost use Rattle.clap.specs.Lexer.{usize_max};
ghost use Rattle.dp_frame.specs.{all_lines, first_refusal, settings_of};
ghost use Rattle.dp_plant.specs.declared.plant.Plant.{Plant};
ghost use Rattle.dp_script.specs.{made};
ghost use Rattle.dp_shell.specs.{Files};
ghost use Rattle.dp_app.specs.declared.fault.Fault.{Fault};
ghost use Rattle.dp_app.specs.CommandLine.{ArePlainWords};
ghost use Rattle.dp_app.specs.{Asks, Command, IsOnAcceptedPlant, Task, TellsBoundedForces, TellsOwnForces, TellsReferenceForces, command_by, command_in, play_made};

use dp_core::laws::{fresh_is_reference, held_is_own};
use dp_machine::laws::replaced_reference_is_bounded;

/// Where at most one computer was faulty in any cycle so far, each fresh force that is told of a cycle is the reference run's.
pub fn fresh_forces_are_reference()
    ensures { (x : Result Task Fault) → TellsReferenceForces x }
{
    fresh_is_reference();
}

/// Whatever is faulty, each force that is told as taken of a computer is of that computer's own trajectory, for this cycle, unless one
/// was said in its name.
pub fn taken_forces_are_own()
    ensures { (x : Result Task Fault) → TellsOwnForces x }
{
    held_is_own();
}

/// The plant of whatever words and files ask for was accepted: none of its cases is refused, and its own gains were accepted with its own
/// certificate.
pub fn asked_plants_are_accepted()
    ensures { (c : Option Command) (files : Files) (x : Result Task Fault)
        → Asks c files x → IsOnAcceptedPlant x }
{}

/// On an accepted plant each of the fresh ones is within the bound of the reference run of any other record that differs in what one
/// position reference tells; and what a check tells are such bounds.
pub fn fresh_forces_are_bounded()
    ensures { (x : Result Task Fault) → IsOnAcceptedPlant x → TellsBoundedForces x }
{
    fresh_is_reference();
    replaced_reference_is_bounded();
}

/// Words and files always ask for something, and for one thing alone.
pub fn one_task_is_asked()
    ensures some { (c : Option Command) (files : Files)
        → (x : Result Task Fault) × Asks c files x }
    ensures one { (c : Option Command) (files : Files) (x y : Result Task Fault)
        → Asks c files x → Asks c files y → x ≡ y }
{}

/// Words of which none begins with a hyphen are taken as they stand.
pub fn plain_words_are_taken()
    ensures { (words : List (List ℕ)) → ArePlainWords words → length words ≤ usize_max
        → command_in words ≡ command_by words }
{}

/// Each line of a record that is made of a number can be taken, on every plant; so what a trial plays has no fault.
pub fn made_records_are_good()
    ensures lines { (p : Plant) (number : ℕ)
        → first_refusal (settings_of p) (all_lines (made number)) ≡ None }
    ensures play { (p : Plant) (number : ℕ) → (play_made p number).fault ≡ None }
{}
