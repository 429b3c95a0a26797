//! A check's parts as texts.
ghost use Rattle.std.specs.Prelude.{◌≡◌, ◌≢◌, ◌⊎◌, Err, IfErr, IfOk, IsOk};
ghost use Rattle.loom_engine.specs.declared.rt.parts.Part.{Part as Kept};
ghost use Rattle.loom_engine.specs.declared.rt.parts.Parts.{Parts as Listed};
ghost use Rattle.loom.specs.Model.PartText.{IsListText, IsNoListText, IsNoPartText, IsPartText, IsPathText};
ghost use Rattle.loom.specs.Model.Settings.{tested};

use crate::model::builder::Builder;
use crate::model::error::CheckError;
use crate::model::parts::refusal_of;
use loom_engine::rt::parts::error::PartsError;
use loom_engine::rt::parts::{Part, Parts};
use loom_engine::rt::path::checkpoint::text::from_text;
use std::alloc::Global;

impl Builder {
    /// The list of parts that the text holds, for this check, or a list of one part, where it is the checkpoint of a check that isn't cut
    /// (own). A setting out of range is refused, and then a text of neither kind, or of a check with other settings.
    pub fn parts_from(&self, alloc: Global, text: &[u8]) -> Result<Parts, CheckError>
        ensures refused { IfErr (tested self.now) (λ e. result ≡ Err e) }
        ensures ok { IfOk result (λ parts. IsListText self.now text.now parts ⊎ IsPathText self.now text.now parts) }
        ensures errors { IfErr result (λ e. (tested self.now ≡ Err e) ⊎ IsNoListText self.now text.now e) }
        ensures exact { IfErr result (λ e. IsOk (tested self.now) → e ≢ CheckError.Memory → (parts : Listed) → ¬ IsListText self.now text.now parts) }
    {
        self.test()?;
        match Parts::from_text(alloc, text, self.search_settings()) {
            Ok(parts) => Ok(parts),
            Err(PartsError::WrongFormat) => {
                let path = from_text(alloc, text, self.search_settings())?;
                Ok(Parts::from_path(alloc, path)?)
            }
            Err(why) => Err(refusal_of(why)),
        }
    }

    /// The part that the text holds, for this check (own). Its errors are those of `parts_from`.
    pub fn part_from(&self, alloc: Global, text: &[u8]) -> Result<Part, CheckError>
        ensures refused { IfErr (tested self.now) (λ e. result ≡ Err e) }
        ensures ok { IfOk result (IsPartText self.now text.now) }
        ensures errors { IfErr result (λ e. (tested self.now ≡ Err e) ⊎ IsNoPartText self.now text.now e) }
        ensures exact { IfErr result (λ e. IsOk (tested self.now) → e ≢ CheckError.Memory → (part : Kept) → ¬ IsPartText self.now text.now part) }
    {
        self.test()?;
        match Part::from_text(alloc, text, self.search_settings()) {
            Ok(part) => Ok(part),
            Err(why) => Err(refusal_of(why)),
        }
    }
}
