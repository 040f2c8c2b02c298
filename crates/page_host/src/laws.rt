//! What holds of hosts. A law is a function that says it and does nothing.

ghost use Rattle.page_host.specs.Sound.{
  HostsStaySound,
  NewHostsAreSound,
  NewNodesStayPlain,
  NewNodesStaySound,
  StepsStayPlain,
};

/// A host is sound at all times.
pub fn law_hosts_stay_sound()
    // A page that was read is, where its nodes are.
    ensures beginning { NewHostsAreSound }
    // Whatever is done to a host, it stays so.
    ensures steps { HostsStaySound }
    // So it does where a node is made.
    ensures new_nodes { NewNodesStaySound }
    // No attribute's name comes to begin with `on`.
    ensures plain { StepsStayPlain }
    ensures new_plain { NewNodesStayPlain }
{}
