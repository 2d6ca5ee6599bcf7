// The lines that show nothing but their numbers, and those of a whole dump.
ghost use Rattle.std.specs.Prelude.{ℕ, List, ◌≡◌};
ghost use Rattle.answer_columns.specs.Lines.{extended};
ghost use Rattle.answer_columns.specs.Pieces.{put_all};
ghost use Rattle.answer_line.specs.Line.{blank_pieces, head_pieces, plain_pieces, no_call_pieces, state_taken, router_state_taken};

use answer_columns::columns::put_numbers as put_first;
use answer_columns::line::Line;
use answer_numbers::numbered::put_numbers;
use answer_numbers::sink::SinkKind;
use composition_state::registry::CompositionRegistry;
use input_router::router::PlatformInputRouter;
use registry_dump::registry::RegistryDump;
use router_dump::router::RouterDump;

// Columns 4 to 7 of a call that shows nothing, each with the space behind it.
fn put_blank(line: &mut Line<'_>)
    ensures { line.new ≡ extended blank_pieces line.old }
{
    line.bytes(b"- - - - ");
}

// Columns 1 to 7.
fn put_head(calls: u64, number: u64, revision: u64, line: &mut Line<'_>)
    ensures { line.new ≡ extended (head_pieces calls number revision) line.old }
{
    put_first(calls, number, revision, line);
    put_blank(line);
}

// Columns 1 to 8 of a call that shows nothing.
pub fn put_plain(out: &mut [u8], calls: u64, number: u64, revision: u64) -> usize
    ensures { ◌≡◌ {A = List ℕ × ℕ} (out.new, result)
        (put_all (plain_pieces calls number revision) (out.old, 0)) }
{
    let mut line = Line { out, at: 0 };
    put_head(calls, number, revision, &mut line);
    line.none();
    line.at
}

// Columns 1 to 8 of a line that is no call.
pub fn put_no_call(out: &mut [u8], calls: u64, revision: u64) -> usize
    ensures { ◌≡◌ {A = List ℕ × ℕ} (out.new, result)
        (put_all (no_call_pieces calls revision) (out.old, 0)) }
{
    let mut line = Line { out, at: 0 };
    line.cell(calls);
    line.bytes(b"? ");
    line.cell(revision);
    put_blank(&mut line);
    line.none();
    line.at
}

// Columns 1 to 8 of `state`.
pub fn put_state(out: &mut [u8], calls: u64, registry: CompositionRegistry) -> usize
    ensures { ◌≡◌ {A = List ℕ × ℕ} (out.new, result) (state_taken calls registry out.old) }
{
    let mut line = Line { out, at: 0 };
    put_head(calls, 0, registry.revision, &mut line);
    let at = line.at;
    put_numbers(line.out, at, SinkKind::Dump, &RegistryDump(&registry))
}

// Columns 1 to 8 of `router_state`.
pub fn put_router_state(
    out: &mut [u8],
    calls: u64,
    revision: u64,
    router: PlatformInputRouter,
) -> usize
    ensures { ◌≡◌ {A = List ℕ × ℕ} (out.new, result)
        (router_state_taken calls revision router out.old) }
{
    let mut line = Line { out, at: 0 };
    put_head(calls, 0, revision, &mut line);
    let at = line.at;
    put_numbers(line.out, at, SinkKind::Dump, &RouterDump(&router))
}
