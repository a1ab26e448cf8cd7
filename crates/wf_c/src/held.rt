//! The content of a path's handle, and its calls.

ghost use Rattle.std.specs.Prelude.{◌≡◌, ℕ, IfSome};
ghost use Rattle.wf_frame.specs.Frames.{FrameValue};
ghost use Rattle.wf_frame.specs.declared.notes.Ask.TheVariants.{Pull};
ghost use Rattle.wf_def_world.specs.World.{opening};
ghost use Rattle.wf_send_half_model.specs.Standing.{StandsFor};
ghost use Rattle.wf_path.specs.Addresses.{made_up};
ghost use Rattle.wf_path.specs.Jobs.{as_ask};
ghost use Rattle.wf_path.specs.Paths.{IsSmall};
ghost use Rattle.wf_c.specs.Calls.{IsCalled};

use crate::reply::Reply;
use crate::reserve::Reserve;
use std::alloc::Global;
use wf_frame::{Answer, Class, Config, Limits};
use wf_path::{Path, PathAsk, PathJob};

/// A path, the buffer that each call writes its answer to, and memory in reserve.
#[derive(Drop)]
pub struct Held {
    pub(crate) path: Path,
    pub(crate) answer: Answer,
    pub(crate) reserve: Reserve,
}

impl Held {
    // A path with these settings, in its own block of memory. None if a setting is out of its range, or if
    // there is no memory.
    pub(crate) fn made(alloc: Global, config: Config) -> Option<Box<Held, Global>>
        ensures stands { IfSome result (λ made. (bodies : ℕ → FrameValue) →
            StandsFor made.value.path.half (opening config) bodies) }
        ensures small { IfSome result (λ made. IsSmall made.value.path.half) }
        ensures addresses { IfSome result (λ made. made.value.path.addresses ≡ made_up) }
        ensures reserve { IfSome result (λ made. made.value.reserve ≡ 0) }
    {
        match Path::new(alloc, config) {
            Ok(path) => Held::boxed(alloc, path),
            Err(_) => None,
        }
    }

    // A path in its own block of memory.
    fn boxed(alloc: Global, path: Path) -> Option<Box<Held, Global>>
        ensures path { IfSome result (λ made. made.value.path ≡ path) }
        ensures reserve { IfSome result (λ made. made.value.reserve ≡ 0) }
    {
        let held = Held {
            path,
            answer: Answer::new(),
            reserve: Reserve::new(alloc),
        };
        match Box::new(alloc, held) {
            Ok(boxed) => Some(boxed),
            Err(_) => None,
        }
    }

    // Opens the next exchange of a class, within these limits.
    pub(crate) fn pull(&mut self, class: Class, limits: Limits) -> Reply
        requires small { IsSmall self.old.path.half }
        ensures { IsCalled self.old (Pull class limits) self.new result }
    {
        let _ = self
            .path
            .call(PathJob::Pull(class, limits), &mut self.answer);
        Reply::of(self.answer.brief)
    }

    // Makes a call that brings and returns no frame, and whose answer has no lists.
    pub(crate) fn ask(&mut self, ask: PathAsk) -> Reply
        requires small { IsSmall self.old.path.half }
        ensures { IsCalled self.old (as_ask ask) self.new result }
    {
        let _ = self.path.call(PathJob::Call(ask), &mut self.answer);
        Reply::of(self.answer.brief)
    }
}
