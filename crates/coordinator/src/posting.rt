ghost use Rattle.std.specs.Prelude.{◌≡◌, ◌≢◌, ◌++◌, ◌+◌, ◌-◌, ◌<◌, ◌^◌, ℕ, List, length};
ghost use Rattle.writer_calls.specs.Mailbox.{closed, mailbox_at, number_of};
ghost use Rattle.set_agenda.specs.Agenda.{Open, open_order, open_place};
ghost use Rattle.set_agenda.specs.Course.{OrderGroup, opens};
ghost use Rattle.coordinator.specs.KeptCourse.{left_now};
ghost use Rattle.coordinator.specs.OpenOrders.{AreFit, AreReady, HasRoom, SentAtMost, posted_to};

use crate::codes::is_same_place;
use crate::running_agenda::RunningAgenda;
use set_agenda::{Group, Place};
use vss_names::{MOST_WRITERS, Order};
use writer_calls::Mailboxes;

/// Where the agenda stands; the place of PreCommit where none runs.
pub fn place_now(running: &Option<RunningAgenda>) -> Place
    ensures { result ≡ open_place (left_now running.now) }
{
    match running {
        None => Place {
            group: Group::PreCommit,
            level: None,
        },
        Some(running) => running.agenda.place(),
    }
}

/// The order that the writer has to answer.
fn order_for(running: &Option<RunningAgenda>, writer: u32) -> Option<Order>
    requires { writer < 64 }
    ensures { result ≡ open_order (left_now running.now) writer }
{
    let Some(running) = running else {
        return None;
    };
    if !running.agenda.is_open(writer) {
        return None;
    }
    match running.agenda.open_group() {
        None => None,
        Some(group) => group.order(),
    }
}

/// The writer's mailbox has this order open and no other; it is sent where its group has just opened.
fn post_to(mailboxes: &mut Mailboxes, writer: u32, elsewhere: bool, order: Option<Order>)
    requires writer { writer < length mailboxes.old }
    requires room { number_of (mailbox_at mailboxes.old writer) < 2 ^ 32 - 1 }
    ensures here { mailbox_at mailboxes.new writer ≡ posted_to elsewhere order (mailbox_at mailboxes.old writer) }
    ensures others { (w : ℕ) → w ≢ writer → mailbox_at mailboxes.new w ≡ mailbox_at mailboxes.old w }
    ensures len { length mailboxes.new ≡ length mailboxes.old }
{
    match order {
        None => mailboxes.cancel(writer),
        Some(order) => {
            if elsewhere {
                mailboxes.cancel(writer);
                mailboxes.send(writer, order);
            }
        }
    }
}

/// Sends the orders of the group that is open, where another was open before, and closes those that are not waited for
/// any more.
pub fn post(mailboxes: &mut Mailboxes, before: Place, running: &Option<RunningAgenda>)
    requires mailboxes { length mailboxes.old ≡ 64 }
    requires room { HasRoom mailboxes.old }
    ensures fit { (os : List Open) (gs : List OrderGroup) → before ≡ open_place os → AreReady mailboxes.old os (left_now running.now) gs
        → AreFit mailboxes.new (left_now running.now) (gs ++ opens os (left_now running.now)) }
    ensures sent { (n : ℕ) → SentAtMost n mailboxes.old → SentAtMost (n + 1) mailboxes.new }
    ensures len { length mailboxes.new ≡ 64 }
{
    let elsewhere = !is_same_place(before, place_now(running));
    let mut writer = 0;
    while writer < MOST_WRITERS {
        post_to(mailboxes, writer, elsewhere, order_for(running, writer));
        writer += 1;
    }
}

/// Closes all orders.
pub fn close_all(mailboxes: &mut Mailboxes)
    requires mailboxes { length mailboxes.old ≡ 64 }
    ensures closed { (w : ℕ) → w < 64 → mailbox_at mailboxes.new w ≡ closed (mailbox_at mailboxes.old w) }
    ensures sent { (n : ℕ) → SentAtMost n mailboxes.old → SentAtMost n mailboxes.new }
    ensures len { length mailboxes.new ≡ 64 }
{
    let mut writer = 0;
    while writer < MOST_WRITERS {
        close_one(mailboxes, writer);
        writer += 1;
    }
}

fn close_one(mailboxes: &mut Mailboxes, writer: u32)
    requires { writer < length mailboxes.old }
    ensures here { mailbox_at mailboxes.new writer ≡ closed (mailbox_at mailboxes.old writer) }
    ensures others { (w : ℕ) → w ≢ writer → mailbox_at mailboxes.new w ≡ mailbox_at mailboxes.old w }
    ensures len { length mailboxes.new ≡ length mailboxes.old }
{
    mailboxes.cancel(writer);
}
