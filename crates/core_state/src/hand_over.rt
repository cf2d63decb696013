//! Frames that go from the hand of one seat to that of another.

ghost use Rattle.std.specs.Prelude.{◌≡◌, ◌≢◌, ◌+◌, ◌^◌, ◌<◌, ◌≤◌, None, length, slice_set};
ghost use Rattle.core_state.specs.Views.{view_of, hand_frame};
ghost use Rattle.core_state.specs.HandOvers.{views_after_hand_over};

use crate::snapshot::ViewList;
use evac_model::FrameNo;

/// Passes a frame on, with what was stored in it.
fn pass_frame(views: &mut ViewList, from: usize, to: usize, frame: FrameNo)
    requires from { from < length views.old }
    requires to { to < length views.old }
    requires apart { from ≢ to }
    requires giver { frame.0 < length (view_of views.old from).hand }
    requires receiver { frame.0 < length (view_of views.old to).hand }
    ensures { let giver = view_of views.old from in
        let receiver = view_of views.old to in
        views.new
        ≡ slice_set
        (slice_set views.old from (record giver { hand = slice_set giver.hand frame.0 None }))
        to (record receiver { hand = slice_set receiver.hand frame.0 (hand_frame giver frame.0) }) }
{
    let place = views.item_mut(from).take_place(frame);
    views.item_mut(to).put_place(frame, place);
}

/// Passes so many frames on, from a first one on. It costs the frames.
pub(crate) fn pass_frames(views: &mut ViewList, from: usize, to: usize, first: FrameNo, n: u32)
    requires from { from < length views.old }
    requires to { to < length views.old }
    requires apart { from ≢ to }
    requires small { first.0 + n < 2 ^ 32 }
    requires giver { first.0 + n ≤ length (view_of views.old from).hand }
    requires receiver { first.0 + n ≤ length (view_of views.old to).hand }
    ensures { views.new ≡ views_after_hand_over views.old from to (view_of views.old from) (view_of views.old to) first.0 n }
{
    for i in 0..n {
        pass_frame(views, from, to, FrameNo(first.0 + i));
    }
}
