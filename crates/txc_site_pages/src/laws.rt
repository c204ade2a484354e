//! A law about pages in the histories of the nodes.
ghost use Rattle.txc_site_pages.specs.Pages.{PageStepsAreItsCalls};

/// For the requests of a page's calls to a node, each hit and each stored entry is in that node's history once.
/// Each miss and each other insertion is recorded at most once, since a node may fail. They are recorded under
/// the client's pass in the order of the requests, as far as the pass has seen. The pass has no other record
/// there from that time. It is a lemma without code.
pub fn page_steps_are_its_calls()
    ensures { PageStepsAreItsCalls }
{}
