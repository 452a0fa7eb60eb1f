// What texts are read as.
ghost use Rattle.std.specs.Prelude.{◌≡◌, ◌<◌, ◌^◌, ℕ, List, length, true};
ghost use Rattle.std.specs.List.{All};
ghost use Rattle.dsv_cascade.specs.Cascades.{CascadeView, sections_of};
ghost use Rattle.dsv_code.specs.Members.{cascade_members, controller_members, state_members};
ghost use Rattle.dsv_command.specs.CodeNames.{is_code_name};
ghost use Rattle.dsv_meaning.specs.Equations.{order};
ghost use Rattle.dsv_quantiser.specs.QuantisedView.{QuantisedView};
ghost use Rattle.dsv_state_space.specs.StateView.{StateView, states};
ghost use Rattle.dsv_c_reading.specs.Labels.{AreMembers, IsIdentifier};
ghost use Rattle.dsv_c_reading.specs.Law.{ProgramsAreReadBack, SubjectsAreReadBack};

/// The text of a netlist's program, read from its bytes, is that program: its struct, its helper
/// functions, and each line of its init and its step.
pub fn programs_are_read_back()
    ensures { ProgramsAreReadBack }
{}

/// So is the C of a subject without a test, alone or after a comment that has a name.
pub fn subjects_are_read_back()
    ensures { SubjectsAreReadBack }
{}

/// What the laws above ask of names is so of those that the command writes: what it lets names
/// begin with is an identifier, and no two registers have one name.
pub fn names_are_good()
    ensures prefixes { (prefix : List ℕ) → is_code_name prefix ≡ true → IsIdentifier prefix }
    ensures controllers { (q : QuantisedView) → order q < 2 ^ 32
        → AreMembers (controller_members q) }
    ensures cascades { (c : CascadeView) → length (sections_of c) < 2 ^ 32
        → All (λ q. order q < 2 ^ 32) (sections_of c) → AreMembers (cascade_members c) }
    ensures states { (s : StateView) → states s < 2 ^ 32 → AreMembers (state_members s) }
{}
