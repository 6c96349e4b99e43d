// Laws of the definitions alone: each function has an empty body, and its contract is the law.

ghost use Rattle.json_text.specs.Grammar.{TextsAreUnambiguous};
ghost use Rattle.json_text.specs.Machine.{MachineAcceptsTheGrammar, MachineAcceptsWithin, PrefixIsAlive, StackIsTheDepth};
ghost use Rattle.json_text.specs.Node.{ItemsAreNodes, MembersAreNodes};
ghost use Rattle.json_text.specs.Scanning.{DepthIsFound, FaultIsFound};

/// No bytes are spelled by two trees of the grammar.
pub fn texts_are_unambiguous()
    ensures { TextsAreUnambiguous }
{}

/// The machine ends just on the JSON texts.
pub fn machine_accepts_the_grammar()
    ensures { MachineAcceptsTheGrammar }
{}

/// The machine ends, with so many levels, just on the JSON texts of no more levels.
pub fn machine_accepts_within()
    ensures { MachineAcceptsWithin }
{}

/// The machine is in no fault just on the bytes with which some JSON text begins.
pub fn prefix_is_alive()
    ensures { PrefixIsAlive }
{}

/// The stack of the machine is as long as the arrays and objects that are open.
pub fn stack_is_the_depth()
    ensures { StackIsTheDepth }
{}

/// Where the machine is stopped by a fault or by the end, there is the syntax fault.
pub fn fault_is_found()
    ensures { FaultIsFound }
{}

/// Where the machine would put one on a full stack, the text is too deep.
pub fn depth_is_found()
    ensures { DepthIsFound }
{}

/// The items of an array are nodes of the text, each with its place.
pub fn items_are_nodes()
    ensures { ItemsAreNodes }
{}

/// The values of an object's members are nodes of the text, each with its place.
pub fn members_are_nodes()
    ensures { MembersAreNodes }
{}
