ghost use Rattle.std.specs.Prelude.{◌≡◌, [], ◌∷◌, codes, Ok, Err};
ghost use Rattle.ut_words.specs.declared.order.UsageKind.TheVariants as usage;
ghost use Rattle.undertaker_run.specs.Orders.{order_of};
ghost use Rattle.undertaker_run_rows.specs.Worked.{cut, file, golem, lines, nothing};

/// What golem comes to over given files, by its definition.
pub fn golem_rows()
    ensures in_folder { golem (file (codes "Makefile") (codes "obj-$(CONFIG_A) += a.o d/" ∷ []) (file (codes "d/Makefile") (codes "obj-y += b.o" ∷ []) nothing)) (codes "Makefile")
        ≡ Ok (lines (codes "a CONFIG_A" ∷ codes "d/b CONFIG_A" ∷ [])) }
    ensures conditional { golem (file (codes "Makefile") (codes "ifdef CONFIG_A" ∷ codes "obj-y += a.o" ∷ codes "endif" ∷ []) nothing) (codes "Makefile")
        ≡ Ok (lines (codes "a \"ifdef CONFIG_A\"" ∷ [])) }
    ensures without_partner { golem (file (codes "Makefile") (codes "endif" ∷ []) nothing) (codes "Makefile") ≡ Err (codes "Makefile:1: kbuild") }
    ensures without_text { golem (file (codes "Makefile") (codes "obj-y += d/" ∷ []) nothing) (codes "Makefile") ≡ Err (codes "d/Makefile: missing") }
    ensures without_root { golem nothing (codes "Makefile") ≡ Err (codes "Makefile: missing") }
{}

/// Words whose job isn't built.
pub fn other_jobs()
    ensures dead { order_of (cut (codes "-j dead --kconfig K a.c")) ≡ Err usage.Job }
    ensures no_job { order_of (cut (codes "--kconfig K a.c")) ≡ Err usage.Job }
    ensures unknown { order_of (cut (codes "-j nosuch")) ≡ Err usage.Job }
    ensures number_first { order_of (cut (codes "-j golem -t 65")) ≡ Err usage.Number }
{}
