// Rings of two tables and a log in service.
use crate::asking::{Ask, Came, Row, accepted, call, letter, on_a_ring, refused, rye_at};
use crate::making::{number_at, path_in, rye, turns};
use entries::{Content, Recipe};
use letters::{Letter, Tag};
use names::Label;
use service::Call;
use std::alloc::AllocGlobal;
use std::process::Abort;
use std::test::*;

// Goes through a table with room for all its letters.
fn with_room(rt: &(impl Abort + AllocGlobal), rows: &[Row]) -> Result<(), Fail> {
    let mut letters = [Letter::blank(); 32];
    on_a_ring(rt, &mut letters, rows)
}

// Copy 1 gets rye after the sweep has begun and before the raise is handed. Stamp 1281 is time 5 at copy 1.
#[test]
fn a_count_is_read_when_the_raise_is_handed(rt: HostRuntime) -> Result<(), Fail> {
    with_room(
        &rt,
        &[
            accepted(Call::Begin(0, 9)),
            accepted(Call::Press(0)),
            accepted(Call::Post(1, rye(), number_at(1281, 640))),
            accepted(Call::Hand(0)),
            letter(1, Tag::Counted, 0, 1),
            call(Call::Collect(0, 1), Came::More),
            // the count is known: no other counted letter is taken, nor this one again
            refused(Call::Collect(0, 1), 9),
            accepted(Call::Press(0)),
            letter(2, Tag::Fetch, 1, 0),
            accepted(Call::Hand(2)),
            call(Call::Collect(0, 3), Came::More),
            rye_at(0, Came::Number(640, 1)),
        ],
    )
}

// Copy 1 gets rye between the two, stamped with its own time 9 as the floor asks; the later count is collected.
#[test]
fn a_raise_handed_twice_gives_two_counts(rt: HostRuntime) -> Result<(), Fail> {
    with_room(
        &rt,
        &[
            accepted(Call::Begin(0, 9)),
            accepted(Call::Press(0)),
            accepted(Call::Hand(0)),
            accepted(Call::Post(1, rye(), number_at(2305, 640))),
            accepted(Call::Hand(0)),
            letter(1, Tag::Counted, 0, 0),
            letter(2, Tag::Counted, 0, 1),
            call(Call::Collect(0, 2), Came::More),
            refused(Call::Collect(0, 1), 9),
            accepted(Call::Press(0)),
            letter(3, Tag::Fetch, 1, 0),
        ],
    )
}

// A count of 0 leads to the next copy at once, and a home that holds nothing sends swept at once.
#[test]
fn empty_copies_are_swept_without_fetch_or_put(rt: HostRuntime) -> Result<(), Fail> {
    with_room(
        &rt,
        &[
            accepted(Call::Begin(0, 9)),
            accepted(Call::Press(0)),
            accepted(Call::Hand(0)),
            letter(1, Tag::Counted, 0, 0),
            call(Call::Collect(0, 1), Came::More),
            accepted(Call::Press(0)),
            letter(2, Tag::Raise, 2, 0),
            accepted(Call::Hand(2)),
            call(Call::Collect(0, 3), Came::Done),
            accepted(Call::Spread(0)),
            accepted(Call::Press(0)),
            letter(4, Tag::Swept, 1, 0),
            accepted(Call::Hand(4)),
            call(Call::Confirm(0, 5), Came::More),
            accepted(Call::Press(0)),
            letter(6, Tag::Swept, 2, 0),
            accepted(Call::Hand(6)),
            call(Call::Confirm(0, 7), Came::Done),
            call(Call::Close(0), Came::Stamped(2304)),
        ],
    )
}

// The bag has two places: news and the raise.
#[test]
fn a_full_bag_refuses_a_reply_and_not_news(rt: HostRuntime) -> Result<(), Fail> {
    let mut letters = [Letter::blank(); 2];
    on_a_ring(
        &rt,
        &mut letters,
        &[
            accepted(Call::Post(0, rye(), number_at(1280, 640))),
            accepted(Call::Mail(0, 1, 0)),
            accepted(Call::Begin(0, 9)),
            accepted(Call::Press(0)),
            refused(Call::Press(0), 17),
            refused(Call::Hand(1), 17),
            rye_at(1, Came::Unread(18, 1)),
            accepted(Call::Hand(0)),
            rye_at(1, Came::Number(640, 1)),
            // without the news there is room for the reply
            accepted(Call::Lose(0)),
            accepted(Call::Hand(0)),
            letter(1, Tag::Counted, 0, 1),
        ],
    )
}

// Both copies, a table and a log, have a newer entry when the news comes again.
#[test]
fn news_handed_again_changes_nothing(rt: HostRuntime) -> Result<(), Fail> {
    with_room(
        &rt,
        &[
            accepted(Call::Post(0, rye(), number_at(1280, 640))),
            accepted(Call::Mail(0, 1, 0)),
            accepted(Call::Mail(0, 2, 0)),
            accepted(Call::Hand(0)),
            accepted(Call::Hand(1)),
            accepted(Call::Post(1, rye(), number_at(1537, 655))),
            accepted(Call::Post(2, rye(), number_at(1538, 660))),
            accepted(Call::Hand(0)),
            accepted(Call::Hand(1)),
            rye_at(1, Came::Number(655, 1)),
            rye_at(2, Came::Number(660, 1)),
        ],
    )
}

// A whole sweep, in which fetch, put and swept are handed twice; the sweep awaits none of the second replies.
#[test]
fn a_request_handed_again_is_replied_to_again(rt: HostRuntime) -> Result<(), Fail> {
    with_room(
        &rt,
        &[
            accepted(Call::Post(1, rye(), number_at(1281, 640))),
            accepted(Call::Begin(0, 9)),
            accepted(Call::Press(0)),
            accepted(Call::Hand(0)),
            call(Call::Collect(0, 1), Came::More),
            accepted(Call::Press(0)),
            accepted(Call::Hand(2)),
            accepted(Call::Hand(2)),
            letter(4, Tag::Entry, 0, 0),
            call(Call::Collect(0, 3), Came::More),
            refused(Call::Collect(0, 4), 9),
            // copy 2 has nothing
            accepted(Call::Press(0)),
            accepted(Call::Hand(5)),
            call(Call::Collect(0, 6), Came::Done),
            accepted(Call::Spread(0)),
            accepted(Call::Press(0)),
            accepted(Call::Hand(7)),
            accepted(Call::Hand(7)),
            letter(9, Tag::Stored, 0, 0),
            call(Call::Confirm(0, 8), Came::More),
            refused(Call::Confirm(0, 9), 9),
            accepted(Call::Press(0)),
            accepted(Call::Hand(10)),
            accepted(Call::Hand(10)),
            letter(12, Tag::Noted, 0, 0),
            call(Call::Confirm(0, 11), Came::More),
            refused(Call::Confirm(0, 12), 9),
            // copy 2 gets rye
            accepted(Call::Press(0)),
            accepted(Call::Hand(13)),
            call(Call::Confirm(0, 14), Came::More),
            accepted(Call::Press(0)),
            accepted(Call::Hand(15)),
            call(Call::Confirm(0, 16), Came::Done),
            call(Call::Close(0), Came::Stamped(2304)),
            rye_at(0, Came::Number(640, 1)),
            rye_at(1, Came::Number(640, 1)),
            rye_at(2, Came::Number(640, 1)),
        ],
    )
}

// Times and floors where begin and post are just refused and just accepted; labels of eight and of nine bytes.
#[test]
fn stamps_and_labels_at_their_limits(rt: HostRuntime) -> Result<(), Fail> {
    with_room(
        &rt,
        &[
            refused(Call::Begin(0, 0), 14),
            accepted(Call::Begin(1, 0)),
            accepted(Call::Begin(0, 5)),
            refused(Call::Post(0, rye(), number_at(1024, 640)), 14),
            accepted(Call::Post(0, rye(), number_at(1280, 640))),
            accepted(Call::Post(0, path_in(1, b"baguette"), number_at(1280, 300))),
            refused(
                Call::Post(0, path_in(1, b"sourdough"), number_at(1280, 900)),
                11,
            ),
        ],
    )
}

// rye/turns is read after each change of rye and of itself.
#[test]
fn a_rewritten_parent_hides_what_is_older(rt: HostRuntime) -> Result<(), Fail> {
    with_room(
        &rt,
        &[
            accepted(Call::Post(0, rye(), number_at(1280, 1))),
            accepted(Call::Post(0, turns(), number_at(1536, 640))),
            (Ask::Turns(0), Came::Number(640, 1)),
            accepted(Call::Post(0, rye(), number_at(1792, 1))),
            (Ask::Turns(0), Came::Unread(18, 1)),
            accepted(Call::Post(0, turns(), number_at(2048, 655))),
            (Ask::Turns(0), Came::Number(655, 1)),
        ],
    )
}

// A post at copy 2, which keeps a log, of a link from rye in one directory to rye in another.
fn link(from: u32, to: u32) -> Row {
    let entry = Recipe {
        stamp: 1282,
        content: Content::Link(to, Label::or_none(b"rye")),
    };
    accepted(Call::Post(2, path_in(from, b"rye"), entry))
}

// It is followed eight times.
#[test]
fn a_link_to_itself_ends_after_nine_steps(rt: HostRuntime) -> Result<(), Fail> {
    with_room(&rt, &[link(1, 1), rye_at(2, Came::Unread(19, 9))])
}

// Eight links and then a number; then a ninth link in its place.
#[test]
fn eight_links_are_followed_and_no_more(rt: HostRuntime) -> Result<(), Fail> {
    with_room(
        &rt,
        &[
            link(1, 2),
            link(2, 3),
            link(3, 4),
            link(4, 5),
            link(5, 6),
            link(6, 7),
            link(7, 8),
            link(8, 9),
            accepted(Call::Post(2, path_in(9, b"rye"), number_at(1282, 640))),
            rye_at(2, Came::Number(640, 9)),
            // a ninth link instead of the number
            link(9, 10),
            rye_at(2, Came::Unread(19, 9)),
        ],
    )
}
