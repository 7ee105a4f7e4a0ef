use crate::{Ground, NamedRules, Shared};
use kbuild_files::FileConds;
use std::alloc::AllocError;
use ut_logic::{Rules, Sequence};

#[test]
fn a_model_text_without_sources_has_no_numbers(rt: HostRuntime) -> Result<(), AllocError> {
    let rules = Rules {
        names: Sequence::new(rt.alloc()),
        holds: Sequence::new(rt.alloc()),
    };
    let ground = Ground::Rules(NamedRules::of(rt.alloc(), rules)?);
    let conds = FileConds::nothing(rt.alloc())?;
    let shared = Shared::of(rt.alloc(), ground, &conds, &[])?;
    assert!(rt; shared.outers() == 0);
    assert!(rt; shared.undeclared().is_empty());
    Ok(())
}
