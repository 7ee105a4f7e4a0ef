ghost use Rattle.std.specs.Prelude.{◌≡◌, [], ◌∷◌, ◌++◌, OnOk};
ghost use Rattle.ut_base.specs.Reading.{Reads, stand};
ghost use Rattle.ut_base_rows.specs.Sources.{sources_of};

use crate::JobBad;
use std::alloc::{AllocError, Global};
use std::marker::Model;
use ut_base::{Content, Files, Meter, Name, want};

/// Texts in order, which contracts see as the list of their bytes.
#[derive(Drop)]
pub struct Texts {
    list: Vec<Content>,
}

impl Model for Texts {
    ghost use Rattle.std.specs.Prelude.{List};
    ghost use Rattle.ut_text.specs.Bytes.{Bytes};

    ghost Value = { List Bytes };

    ghost view = { λ t. t.list.items };
}

impl Texts {
    /// No texts.
    pub fn new(alloc: Global) -> Texts
        ensures { result ≡ [] }
    {
        Texts {
            list: Vec::new(alloc),
        }
    }

    /// One more text. The only error is want of memory.
    pub fn push(&mut self, text: Content) -> Result<(), AllocError>
        ensures { OnOk result (self.new ≡ self.old ++ text ∷ []) }
    {
        self.list.push(text)?;
        Ok(())
    }

    /// The texts.
    pub fn list(&self) -> &[Content]
        ensures { result.now ≡ self.now }
    {
        self.list.as_slice()
    }
}

/// All sources, in order.
pub fn read_sources<F: Files>(
    alloc: Global,
    files: &mut F,
    names: &[Name],
    meter: &mut Meter,
) -> Result<Texts, JobBad>
    ensures { Reads (sources_of names.now) (stand F.Files files.old) (stand F.Files files.new) meter.old meter.new result }
{
    let mut texts = Texts::new(alloc);
    for name in names {
        let text = want::<F, JobBad>(alloc, files, name, meter)?;
        match texts.push(text) {
            Ok(()) => {}
            Err(_) => return Err(JobBad::Oom),
        }
    }
    Ok(texts)
}
