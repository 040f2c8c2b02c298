//! What is done to two pages that mean the same keeps it. A law is a function that says it and does nothing.

ghost use Rattle.host_relations.specs.Appends.{AppendsRebuild};
ghost use Rattle.host_relations.specs.Attributed.{AttributesAreRebuilt};
ghost use Rattle.host_relations.specs.Carrying.{AppendsCarry};
ghost use Rattle.host_relations.specs.Compacts.{EqualNodesAgree};
ghost use Rattle.host_relations.specs.Heard.{ListenersAreRebuilt};
ghost use Rattle.host_relations.specs.HostLaws.{HostsStay, StepsKeep};
ghost use Rattle.host_relations.specs.HostNames.{HostNamesAgree};
ghost use Rattle.host_relations.specs.Joining.{NewNodesJoin, NodeObjectsJoin};
ghost use Rattle.host_relations.specs.NodeLaws.{
  MadeNodesAgree,
  NewNodesAgree,
  NodeStepsKeep,
  NodesAgree,
  OthersDoNotCount,
};
ghost use Rattle.host_relations.specs.Paths.{EventWaysAgree};
ghost use Rattle.host_relations.specs.TimerLaws.{RebuiltTimersAgree, TimersAreRebuilt, TimersKeepAgreement};

/// The laws of nodes.
pub fn law_nodes()
    // What is read of linked nodes is related, and what is refused at them is the same.
    ensures agree { NodesAgree }
    // What is done to linked nodes keeps them related.
    ensures steps { NodeStepsKeep }
    // Two new nodes join the naming.
    ensures new_nodes { NewNodesAgree }
    // So do a new node and one that is alone.
    ensures made { MadeNodesAgree }
    // Nodes that are not linked do not count.
    ensures others { OthersDoNotCount }
{}

/// The laws of timers.
pub fn law_timers()
    // Ids, what is due, and what is done to timers agree under the shift of the clocks.
    ensures { TimersKeepAgreement }
{}

/// The laws of hosts.
pub fn law_hosts()
    // What is done to hosts fits both or neither, and keeps them related.
    ensures steps { StepsKeep }
    // In a larger naming with the same pairs of nodes they stay related.
    ensures stay { HostsStay }
{}

/// A new node and its object join the naming.
pub fn law_new_nodes()
    // In the hosts, whichever their objects are.
    ensures hosts { NewNodesJoin }
    // In the heaps, where the objects are the youngest.
    ensures heaps { NodeObjectsJoin }
{}

/// Linked nodes have the same host names, and what they read there is related.
pub fn law_host_names()
    ensures { HostNamesAgree }
{}

/// The ways of events at linked nodes are related, and so are the listeners on them.
pub fn law_event_ways()
    ensures { EventWaysAgree }
{}

/// Children are appended again.
pub fn law_appends_carry()
    // In the page itself, from its nodes alone: none is refused, and the nodes are what they were.
    ensures rebuild { AppendsRebuild }
    // In another page, with other ids and other nodes beside: none is refused, and both mean the same then.
    ensures carry { AppendsCarry }
{}

/// Attributes that are set again are the same list.
pub fn law_attributes()
    ensures { AttributesAreRebuilt }
{}

/// Listeners that are added again, node by node, are those of each node.
pub fn law_listeners_again()
    ensures { ListenersAreRebuilt }
{}

/// Timers are started again.
pub fn law_timers_again()
    // They are exactly the timers, with what is left of their times.
    ensures rebuilt { TimersAreRebuilt }
    // So they mean the same.
    ensures agree { RebuiltTimersAgree }
{}

/// Nodes that are equal with places in place of ids are related.
pub fn law_equal_nodes()
    ensures { EqualNodesAgree }
{}
