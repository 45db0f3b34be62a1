//! What holds of the static events of every form.

ghost use Rattle.event_graph.specs.Laws.{EventsAreStatic, EventsHaveBits, EventsAreOver, EventsArePossible, ActionsAreNodes, NodesAct, NodesAreInOrder, BlocksAreSections};

/// The events of a form are static events, and each has its value; guards and values are over the variables of the words.
pub fn events_are_static()
    ensures listed { EventsAreStatic }
    ensures valued { EventsHaveBits }
    ensures over { EventsAreOver }
{}

/// Where words spell the values of the terms, the events whose guards are true may happen together.
pub fn events_are_possible()
    ensures { EventsArePossible }
{}

/// The actions of a part's run are the events of its instance that happen, in their order.
pub fn actions_are_nodes()
    ensures there { ActionsAreNodes }
    ensures back { NodesAct }
    ensures ordered { NodesAreInOrder }
{}

/// The blocks of events that happen are the sections of the run.
pub fn blocks_are_sections()
    ensures { BlocksAreSections }
{}
