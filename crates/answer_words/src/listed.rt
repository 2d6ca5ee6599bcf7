// The releases that an answer lists.
ghost use Rattle.std.specs.Prelude.{◌≡◌};
ghost use Rattle.answer_numbers.specs.Writers.{written};
ghost use Rattle.answer_words.specs.Answers.{release_numbers, releases_numbers};

use answer_numbers::numbered::Numbered;
use answer_numbers::writer::Writer;
use maps::bindings::Binding;
use maps::keys::binding_key;
use release_lists::releases::Releases;

// The kind, the device and the contact or key of what is released, 0 where it has none, then its panel: six numbers
// whatever the kind.
fn write_release(release: &Binding, to: &mut Writer<'_>)
    ensures { to.new ≡ written (release_numbers release.now) to.old }
{
    let key = binding_key(release.key);
    key.kind.write(to);
    key.device.write(to);
    key.generation.write(to);
    key.code.write(to);
    release.surface.write(to);
}

pub fn write_releases(list: &Releases, to: &mut Writer<'_>)
    ensures { to.new ≡ written (releases_numbers list.now) to.old }
{
    let releases = list.entries();
    releases.len().write(to);
    for release in releases {
        write_release(release, to);
    }
}
