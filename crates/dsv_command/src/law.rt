// The rules of the command and the reading of its arguments.
ghost use Rattle.std.specs.Prelude.{◌≡◌, ℕ, Bool, List, Some, None, Ok, IsSome};
ghost use Rattle.dsv_command.specs.ClapCommand.{filled_parts_of};
ghost use Rattle.dsv_command.specs.Finding.{asked_of};
ghost use Rattle.dsv_command.specs.Options.{command_options};
ghost use Rattle.dsv_command.specs.Parts.{PartView};
ghost use Rattle.dsv_command.specs.Reading.{parts_of};
ghost use Rattle.dsv_command.specs.Reasons.{fault_of, marks_of};
ghost use Rattle.dsv_command.specs.Requests.{IsInTable, IsCertifiable};
ghost use Rattle.dsv_command.specs.Rules.{Give, IsRequestLine};
ghost use Rattle.dsv_command.specs.Table.{Request};

/// The rules of arguments on whole lists, and their reading one by one, allow the same arguments
/// and find the same parts in them, whatever the options.
pub fn parts_are_read()
    ensures read { (options : List (List ℕ × Bool)) (arguments : List (List ℕ))
        (parts : List PartView) →
        Give options arguments parts → parts_of options arguments ≡ Some parts }
    ensures given { (options : List (List ℕ × Bool)) (arguments : List (List ℕ))
        (parts : List PartView) →
        parts_of options arguments ≡ Some parts → Give options arguments parts }
{}

/// Arguments ask for something exactly if the rules of the command say so.
pub fn requests_are_read()
    ensures read { (arguments : List (List ℕ)) (request : Request)
        → IsRequestLine arguments request → asked_of arguments ≡ Ok request }
    ensures ruled { (arguments : List (List ℕ)) (request : Request)
        → asked_of arguments ≡ Ok request → IsRequestLine arguments request }
    // The table has what is asked for so.
    ensures in_table { (arguments : List (List ℕ)) (request : Request)
        → IsRequestLine arguments request → IsInTable request }
    ensures certifiable { (arguments : List (List ℕ)) (request : Request)
        → IsRequestLine arguments request → IsCertifiable request }
{}

/// Arguments that aren't allowed have a fault, the first of which is the reason.
pub fn faults_are_found()
    ensures { (arguments : List (List ℕ)) → filled_parts_of command_options arguments ≡ None
        → IsSome (fault_of (marks_of command_options arguments)) }
{}
