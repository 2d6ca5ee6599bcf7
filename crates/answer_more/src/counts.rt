// What the counts show.
ghost use Rattle.answer_more.specs.Shown.{shown_counts};

use answer_numbers::numbered::Numbered;
use answer_numbers::writer::Writer;
use calls::shown::Counts;

// The counts of a registry, as a call shows them.
#[derive(Clone, Copy)]
pub struct ShownCounts<'a>(pub &'a Counts);

impl Numbered for ShownCounts<'_> {
    ghost numbers = { λ c. shown_counts c.0.now };

    fn write(&self, to: &mut Writer<'_>) {
        let counts = self.0;
        counts.session.write(to);
        counts.session_epoch.write(to);
        counts.revision.write(to);
        counts.windows.write(to);
        counts.views.write(to);
        counts.surfaces.write(to);
    }
}
