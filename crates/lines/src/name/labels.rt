ghost use Rattle.std.specs.Prelude.{◌≡◌, ◌≤◌, [], slice_index_or};
ghost use Rattle.std.specs.Option.{option_map};
ghost use Rattle.names.specs.Labels.{label};
ghost use Rattle.lines.specs.Names.{joined_labels, labels_in, path_in, name_labels};

use crate::name::Name;
use names::{Label, Path};

impl Name {
    // The name of no labels, which stands for a text of bad form.
    const NONE: Name = Name {
        count: 0,
        labels: [Label::NONE; 8],
    };

    // Its labels, in order.
    pub fn labels(&self) -> &[Label]
        ensures { result.now ≡ name_labels self.now }
    {
        &self.labels[..self.count]
    }

    // The label at a place; no label for a place that it does not have.
    fn label(&self, place: usize) -> Label
        ensures { result ≡ slice_index_or (name_labels self.now) place (label 0) }
    {
        self.labels().get(place).copied().unwrap_or(Label::NONE)
    }
}

// Reads labels joined by slashes, at most `limit` of them; none for a text of another form.
fn joined_labels(text: &[u8], limit: usize) -> Option<Name>
    requires { limit ≤ 8 }
    ensures { option_map name_labels result ≡ joined_labels limit text.now }
{
    // counted by hand, since the name keeps the count
    let mut count = 0;
    let mut labels = [Label::NONE; 8];
    'parts: for part in text.split(|byte| *byte == b'/') {
        let label = Label::read(part)?;
        if count == limit {
            return None;
        }
        labels[count] = label;
        count += 1;
    }
    Some(Name { count, labels })
}

// Reads a name of one to `limit` labels; of a text of bad form, the name of no labels.
pub(crate) fn read_name(text: &[u8], limit: usize) -> Name
    requires { limit ≤ 8 }
    ensures { name_labels result ≡ labels_in limit text.now }
{
    joined_labels(text, limit).unwrap_or(Name::NONE)
}

// Reads a path of one to three labels in the directory; of a text of bad form, the path of no labels there.
pub(crate) fn read_path(directory: u32, text: &[u8]) -> Path
    ensures { result ≡ path_in directory text.now }
{
    let name = read_name(text, 3);
    Path {
        directory,
        first: name.label(0),
        second: name.label(1),
        third: name.label(2),
    }
}
