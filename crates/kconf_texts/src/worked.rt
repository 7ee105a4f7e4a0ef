//! Worked texts: what short texts come to by the definition. Each function does nothing, and its contract is the law.

ghost use Rattle.std.specs.Prelude.{◌≡◌, [], ◌∷◌, ◌++◌, codes, true, false, Some, None};
ghost use Rattle.ut_base.specs.declared.limits.Limit.TheVariants as limit;
ghost use Rattle.ut_logic.specs.declared.trit.Trit.TheVariants.{N, M, Y};
ghost use Rattle.kconf_words.specs.declared.line_bad.SyntaxKind.TheVariants as fault;
ghost use Rattle.kconf_texts.specs.declared.bad.KconfBad.TheVariants as bad;
ghost use Rattle.kconf_entries.specs.declared.entries.Kind.TheVariants as kind;
ghost use Rattle.kconf_entries.specs.declared.expr.Expr.TheVariants as expr;
ghost use Rattle.kconf_entries.specs.declared.expr.Side.TheVariants as side;
ghost use Rattle.kconf_entries.specs.declared.expr.Sign.TheVariants as sign;
ghost use Rattle.kconf_texts.specs.Worked.{and, bare, choice, default, entries, file, many, name, no_file, one_longer, read, read_with, refused, target, var};

/// A config alone, with a type, and with the attributes that have conditions: each one's own comes first.
pub fn configs()
    ensures alone { read (codes "config A\n") ≡ entries (bare (codes "A") ∷ []) [] }
    ensures typed { read (codes "config A\n\tbool\n\ttristate\n") ≡ entries (record (bare (codes "A")) { kind = kind.Bool } ∷ []) [] }
    ensures conditions { read (codes "config A\n\tbool \"a\" if Q\n\tdepends on P && R\n\tdefault y if S\n")
        ≡ entries (record (bare (codes "A")) {
          kind = kind.Bool;
          depends = and (name (codes "P") ∷ name (codes "R") ∷ []);
          prompts = and (name (codes "Q") ∷ name (codes "P") ∷ name (codes "R") ∷ []) ∷ [];
          defaults = default (expr.Const Y) (and (name (codes "S") ∷ name (codes "P") ∷ name (codes "R") ∷ [])) None ∷ [];
        } ∷ []) [] }
    ensures links { read (codes "config A\n\tdepends on P\n\tselect B if Q\n\timply C\n")
        ≡ entries (record (bare (codes "A")) {
          depends = name (codes "P");
          selects = target (codes "B") (and (name (codes "Q") ∷ name (codes "P") ∷ [])) ∷ [];
          implies = target (codes "C") (name (codes "P")) ∷ [];
        } ∷ []) [] }
    ensures range { read (codes "config A\n\tint\n\trange 1 $(x) if B\n\tdefault 5\n")
        ≡ entries (record (bare (codes "A")) {
          kind = kind.Int;
          defaults = default (expr.Const N) (expr.Const Y) (Some (codes "5")) ∷ [];
        } ∷ []) [] }
    ensures modules { read (codes "config A\n\toption modules\n") ≡ entries (record (bare (codes "A")) { modules = true } ∷ []) [] }
{}

/// Menus and ifs: their conditions from the outermost, then those of the config; `visible if` joins prompts alone, last.
pub fn blocks()
    ensures nested { read (codes "menu \"m\"\n\tvisible if V\n\tdepends on P\nif Q\nconfig A\n\tprompt \"a\" if R\n\tdefault m\nendif\nendmenu\nconfig B\n")
        ≡ entries (record (bare (codes "A")) {
          depends = and (name (codes "P") ∷ name (codes "Q") ∷ []);
          prompts = and (name (codes "R") ∷ name (codes "P") ∷ name (codes "Q") ∷ name (codes "V") ∷ []) ∷ [];
          defaults = default (expr.Const M) (and (name (codes "P") ∷ name (codes "Q") ∷ [])) None ∷ [];
        } ∷ bare (codes "B") ∷ []) [] }
    ensures comment { read (codes "comment \"c\"\n\tdepends on P\nconfig A\n") ≡ entries (bare (codes "A") ∷ []) [] }
{}

/// A choice has its own type, or that of the first type line of a member; its conditions reach its members.
pub fn choices()
    ensures tristate { read (codes "choice\n\ttristate \"c\"\n\tdepends on P\n\tdefault X if Q\nconfig X\n\tbool\nendchoice\n")
        ≡ entries (record (bare (codes "X")) { kind = kind.Bool; depends = name (codes "P"); choice = Some 0 } ∷ [])
        (record choice {
          kind = kind.Tristate;
          prompts = name (codes "P") ∷ [];
          defaults = target (codes "X") (and (name (codes "Q") ∷ name (codes "P") ∷ [])) ∷ [];
        } ∷ []) }
    ensures given { read (codes "config I\n\tint\nchoice\n\toptional\nconfig I\n\tbool\nconfig X\n\tdef_tristate y\nendchoice\n")
        ≡ entries (record (bare (codes "I")) { kind = kind.Int } ∷ record (bare (codes "I")) { kind = kind.Bool; choice = Some 0 }
        ∷ record (bare (codes "X")) { kind = kind.Tristate; defaults = default (expr.Const Y) (expr.Const Y) None ∷ []; choice = Some 0 } ∷ [])
        (record choice { kind = kind.Tristate; optional = true } ∷ []) }
    ensures by_lines { read (codes "config I\n\tbool\nchoice\nconfig I\n\tint\n\tbool\nendchoice\n")
        ≡ entries (record (bare (codes "I")) { kind = kind.Bool } ∷ record (bare (codes "I")) { kind = kind.Int; choice = Some 0 } ∷ [])
        (record choice { kind = kind.Bool } ∷ []) }
{}

/// A sourced text stands in the place of its line; after it there is no entry for attributes.
pub fn sources()
    ensures inside { read_with [] (file (codes "L") (codes "config B\n") no_file) (codes "if P\nsource \"L\"\nendif\nconfig A\n")
        ≡ entries (record (bare (codes "B")) { depends = name (codes "P") } ∷ bare (codes "A") ∷ []) [] }
    ensures after { read_with [] (file (codes "L") (codes "config B\n") no_file) (codes "source \"L\"\n\tbool\n") ≡ refused (bad.Syntax (codes "K") 2 fault.Attribute) }
    ensures unclosed { read_with [] (file (codes "L") (codes "\nif A\nmenu m\n") no_file) (codes "source \"L\"\nendmenu\nendif\n") ≡ refused (bad.Syntax (codes "L") 2 fault.Unclosed) }
    ensures other_text { read_with [] (file (codes "L") (codes "endif\n") no_file) (codes "if A\nsource \"L\"\nendif\n") ≡ refused (bad.Syntax (codes "L") 1 fault.End) }
{}

/// Help texts, joined lines, comments, lines without effect and macros.
pub fn lines_and_words()
    ensures help { read (codes "config A\n\thelp\n\n\t  if X \\\n\t   endif\n\tbool\n") ≡ entries (record (bare (codes "A")) { kind = kind.Bool } ∷ []) [] }
    ensures joined { read (codes "config \\\nA\\\r\nB # C\nendif\n") ≡ refused (bad.Syntax (codes "K") 4 fault.End) }
    ensures no_effect { read (codes "X$(y) := \"\n $(z\nconfig A\n") ≡ entries (bare (codes "A") ∷ []) [] }
    ensures macros { read_with (var (codes "V") (codes "B") ∷ []) no_file (codes "config A\n\tdepends on A$(V)\n\tdepends on $(w,\") = \"x\"\n")
        ≡ entries (record (bare (codes "A")) {
          depends = and (name (codes "AB") ∷ expr.Outer (codes "$(w,\") = \"x\"") ∷ []);
        } ∷ []) [] }
    ensures compared { read (codes "config A\n\tdepends on B!=\"m\"||!(C<5)\n")
        ≡ entries (record (bare (codes "A")) {
          depends = expr.Or (expr.Compare (side.Name (codes "B")) sign.Differ (side.Const M)
              ∷ expr.Neg (expr.Compare (side.Name (codes "C")) sign.Less (side.Literal (codes "5"))) ∷ []);
        } ∷ []) [] }
{}

/// Refusals, each at its line.
pub fn refusals()
    ensures quote { read (codes "config A\n\tbool \"a\n") ≡ refused (bad.Syntax (codes "K") 2 fault.Quote) }
    ensures bracket { read (codes "config A\n\tdepends on $(x\n") ≡ refused (bad.Syntax (codes "K") 2 fault.Bracket) }
    ensures word { read (codes "config A\n\tboll\n") ≡ refused (bad.Syntax (codes "K") 2 fault.Word) }
    ensures end_word { read (codes "config A\nendif\n") ≡ refused (bad.Syntax (codes "K") 2 fault.End) }
    ensures attribute { read (codes "menu m\n\tselect 5\n") ≡ refused (bad.Syntax (codes "K") 2 fault.Attribute) }
    ensures expression { read (codes "if A &&\n") ≡ refused (bad.Syntax (codes "K") 1 fault.Expression) }
    ensures named { read (codes "config A\n\tselect 5 if (\n") ≡ refused (bad.Syntax (codes "K") 2 fault.Named) }
    ensures extra { read (codes "config A B\n") ≡ refused (bad.Syntax (codes "K") 1 fault.Extra) }
    ensures macro_call { read (codes "source \"$(x)\"\n") ≡ refused (bad.Macro (codes "K") 1) }
    ensures twice { read (codes "choice\nconfig A\nendchoice\nchoice\n\nconfig A\n") ≡ refused (bad.Syntax (codes "K") 6 fault.Choice) }
    ensures unclosed { read (codes "menu m\nif A\n\n") ≡ refused (bad.Syntax (codes "K") 1 fault.Unclosed) }
{}

/// Each limit is passed at its line: the line of the 65th text that is sourced, the 65th opener, the 201st sign over a name.
pub fn past_limits()
    ensures itself { read (codes "source \"K\"\n") ≡ refused (bad.Depth (codes "K") 1 limit.SourceDepth) }
    ensures sourced { read_with [] one_longer (codes "source \"x\"\n") ≡ refused (bad.Depth (many 64 (codes "x")) 1 limit.SourceDepth) }
    ensures nesting { read (many 65 (codes "if y\n")) ≡ refused (bad.Depth (codes "K") 65 limit.Nesting) }
    ensures within { read (codes "if " ++ (many 200 (codes "!") ++ codes "A\nendif\n")) ≡ entries [] [] }
    ensures brackets { read (codes "\nif " ++ (many 201 (codes "!") ++ codes "A\n")) ≡ refused (bad.Depth (codes "K") 2 limit.Brackets) }
{}
