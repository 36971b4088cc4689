//! The frames of an interface so far, and the messages in packets that were heard in them.
ghost use Rattle.std.specs.Prelude.{◌≡◌, ◌++◌, ◌∷◌, [], List, Option, IfOk, OnErr, OnOk, false, length, option_map};
ghost use Rattle.j39_frame.specs.Frame.{FrameRecord};
ghost use Rattle.j39_frame.specs.Pgn.{pgn_raw};
ghost use Rattle.j39_listen.specs.Asking.{AsksForBoxes};
ghost use Rattle.j39_listen.specs.Heard.{HeardAtWith, Hearing, or_none};
ghost use Rattle.j39_listen.specs.Listening.{Hears};
ghost use Rattle.j39_survey.specs.CameSoFar.{group_heard};

use crate::surveys::group_table::GroupTable;
use j39_frame::{Frame, Pgn};
use j39_listen::Listener;
use std::alloc::{AllocError, Global};

/// What came of each group, and what is open.
#[derive(Drop)]
pub(crate) struct Traffic {
    pub groups: GroupTable,
    pub listener: Listener,
}

impl Traffic {
    ghost use Rattle.j39_survey.specs.GroupCounts.{nothing};
    ghost use Rattle.j39_survey.specs.SurveyModels.{HasMet, HaveCounted};

    /// Of no frames, with a table of groups of which nothing came.
    pub fn new(alloc: Global, groups: GroupTable) -> Traffic
        ensures { HaveCounted groups (λ pgn. nothing) → HasMet result [] [] }
    {
        Traffic {
            groups,
            listener: Listener::new(alloc),
        }
    }

    /// One frame more. Memory is wanted at an announcement alone.
    #[inline(always)]
    pub fn add(&mut self, frame: &Frame) -> Result<(), AllocError>
        ensures met { OnOk result ((F : List FrameRecord) (heard : List Hearing) → HasMet self.old F heard
            → (more : Option Hearing) × HasMet self.new (F ++ frame.now ∷ []) (heard ++ or_none more)) }
        ensures asked { OnErr result ((F : List FrameRecord) → Hears self.old.listener F → AsksForBoxes F frame.now) }
    {
        let whole = match whole_at(&mut self.listener, frame) {
            Ok(whole) => whole,
            Err(AllocError) => return Err(AllocError),
        };
        self.groups.add_frame(frame);
        self.groups.add_announced(frame);
        self.groups.add_whole(whole);
        Ok(())
    }
}

/// The group of the message in packets that is whole with the next frame.
#[inline(always)]
fn whole_at(listener: &mut Listener, frame: &Frame) -> Result<Option<Pgn>, AllocError>
    ensures whole { IfOk result (λ whole. (F : List FrameRecord) → Hears listener.old F
        → (more : Option Hearing) × HeardAtWith (λ _. false) (F ++ frame.now ∷ []) (length F) more
        × (option_map (λ pgn. pgn_raw pgn) whole ≡ group_heard more)) }
    ensures heard { OnOk result ((F : List FrameRecord) → Hears listener.old F → Hears listener.new (F ++ frame.now ∷ [])) }
    ensures asked { OnErr result ((F : List FrameRecord) → Hears listener.old F → AsksForBoxes F frame.now) }
{
    match listener.feed_as(false, frame) {
        Ok(Some(heard)) => Ok(Some(heard.message.pgn)),
        Ok(None) => Ok(None),
        Err(AllocError) => Err(AllocError),
    }
}
