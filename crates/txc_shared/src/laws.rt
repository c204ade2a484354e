//! Lemmas about the definitions. They have no code: each contract is a law.
ghost use Rattle.txc_shared.specs.Laws.{TrueAfterEvent, TrueAfterReplay, NodeBegins, NodeGoesOn, NodeBreaks, NodeSeesMore, LegalInLonger, NoRecordIsLegal, BeginningIsLegal, AnswersAreTrue, EventsAreTaken};
ghost use Rattle.txc_shared.specs.WorkedNode.{WorkedHistories};

use txc_app::laws::{event_leaves_what_it_does_not_match, true_entries_stay};
use txc_db::states_stay;
use txc_node::laws::{insertion_replays_what_was_missed, lookup_finds_the_longest};

/// A true entry stays true, as a node shows it, through each event and through the replay of those that it
/// missed.
pub fn entries_stay_true()
    ensures event { TrueAfterEvent }
    ensures replay { TrueAfterReplay }
{
    event_leaves_what_it_does_not_match();
    insertion_replays_what_was_missed();
}

/// The steps of a node, one after another, keep its entries true, and so does each longer view of the
/// database's history.
pub fn nodes_go_on()
    ensures begins { NodeBegins }
    ensures step { NodeGoesOn }
    ensures breaks { NodeBreaks }
    ensures sees { NodeSeesMore }
{
    states_stay();
    true_entries_stay();
    entries_stay_true();
}

/// A value that a lookup finds is true.
pub fn answers_are_true()
    ensures { AnswersAreTrue }
{
    lookup_finds_the_longest();
}

/// A legal history of a node is legal in each longer history of the database, and so is each prefix of it. It
/// names each event that was taken.
pub fn legal_histories()
    ensures longer { LegalInLonger }
    ensures none { NoRecordIsLegal }
    ensures beginning { BeginningIsLegal }
    ensures events { EventsAreTaken }
{
    states_stay();
}

/// The legal ones among the worked histories of a node, over the worked history of the database.
pub fn worked_histories()
    ensures { WorkedHistories }
{}
