//! A path cut into its parts.
ghost use Rattle.std.specs.Prelude.{◌≡◌, ◌↔◌, ◌∷◌, ◌++◌, ◌<◌, ◌≤◌, ℕ, List, All, length, IsTrue, IfSome, IsSomeAnd};
ghost use Rattle.std.specs.Char.{is_ascii_digit};
ghost use Rattle.std.specs.Str.Parse.{digits_value};
ghost use Rattle.msr_sds.specs.SdsPath.{SdsPath, ReadsAs, HasDate, HasForm, AreDigits, IsCode, IsLocation, IsDataType, in_folders, path_of, file_name};
ghost use Rattle.msr_sds.specs.Parts.{parts_of, with_file, SameFolders, HaveNoSeparator};
ghost use Rattle.msr_sds.specs.Separators.{Lacks, dot};

use msr_time::BTime;

/// The parts of a path. Those that stand in it twice are kept once.
#[derive(Clone, Copy)]
pub(crate) struct Parts<'a> {
    pub year: &'a str,
    pub network: &'a str,
    pub station: &'a str,
    pub location: &'a str,
    pub channel: &'a str,
    pub data_type: &'a str,
    pub day: &'a str,
}

/// The text before the first separator, an ASCII character, and the text after it.
fn cut(text: &str, separator: char) -> Option<(&str, &str)>
    requires { separator < 128 }
    ensures found { IfSome result (λ x. text.now ≡ x.0.now ++ separator ∷ x.1.now) }
    ensures only { (first rest : List ℕ) → Lacks separator first
        → text.now ≡ first ++ separator ∷ rest
        → IsSomeAnd result (λ x. (x.0.now ≡ first) × (x.1.now ≡ rest)) }
{
    text.split_once(separator)
}

/// The text after that part and a dot.
fn strip<'a>(text: &'a str, part: &str) -> Option<&'a str>
    ensures found { IfSome result (λ after. text.now ≡ part.now ++ dot ∷ after.now) }
    ensures only { (rest : List ℕ) → text.now ≡ part.now ++ dot ∷ rest
        → IsSomeAnd result (λ after. after.now ≡ rest) }
{
    text.strip_prefix(part)?.strip_prefix('.')
}

/// The text after those two parts, each with a dot after it.
fn strip_both<'a>(text: &'a str, first: &str, second: &str) -> Option<&'a str>
    ensures found { IfSome result (λ after. text.now ≡ first.now ++ dot ∷ (second.now ++ dot ∷ after.now)) }
    ensures only { (rest : List ℕ) → text.now ≡ first.now ++ dot ∷ (second.now ++ dot ∷ rest)
        → IsSomeAnd result (λ after. after.now ≡ rest) }
{
    strip(strip(text, first)?, second)
}

fn are_digits(text: &str, count: usize) -> bool
    ensures { IsTrue result ↔ AreDigits count text.now }
{
    text.len() == count && text.bytes().all(|b| b.is_ascii_digit())
}

fn is_location(text: &str) -> bool
    ensures { IsTrue result ↔ IsLocation text.now }
{
    text.len() <= 8 && text.bytes().all(|b| b.is_ascii_alphanumeric())
}

fn is_code(text: &str) -> bool
    ensures { IsTrue result ↔ IsCode text.now }
{
    !text.is_empty() && is_location(text)
}

fn is_data_type(text: &str) -> bool
    ensures { IsTrue result ↔ IsDataType text.now }
{
    text.len() == 1 && text.bytes().all(|b| b.is_ascii_uppercase())
}

/// The number that one to four digits say.
pub(crate) fn number(digits: &str) -> u16
    requires some { 0 < length digits.now }
    requires few { length digits.now ≤ 4 }
    requires digits { All (λ b. IsTrue (is_ascii_digit b)) digits.now }
    ensures { result ≡ digits_value 10 digits.now }
{
    digits.parse::<u16>().unwrap()
}

impl<'a> Parts<'a> {
    /// The parts in the names of the folders, and the name of the file there.
    fn cut_folders(text: &'a str) -> Option<(Parts<'a>, &'a str)>
        ensures found { IfSome result (λ x. text.now ≡ in_folders (parts_of x.0) x.1.now) }
        ensures only { (path : SdsPath) (file : List ℕ) → HaveNoSeparator path
            → text.now ≡ in_folders path file
            → IsSomeAnd result (λ x. SameFolders path (parts_of x.0) × (x.1.now ≡ file)) }
    {
        let (year, rest) = cut(text, '/')?;
        let (network, rest) = cut(rest, '/')?;
        let (station, rest) = cut(rest, '/')?;
        let (channel, rest) = cut(rest, '.')?;
        let (data_type, file) = cut(rest, '/')?;
        let parts = Parts {
            year,
            network,
            station,
            location: "",
            channel,
            data_type,
            day: "",
        };
        Some((parts, file))
    }

    /// The location and the day in the name of a file in those folders.
    fn cut_file(&self, file: &'a str) -> Option<(&'a str, &'a str)>
        ensures found { IfSome result (λ x.
            file.now ≡ file_name (with_file (parts_of self.now) x.0.now x.1.now)) }
        ensures only { (location day : List ℕ) → Lacks dot location
            → file.now ≡ file_name (with_file (parts_of self.now) location day)
            → IsSomeAnd result (λ x. (x.0.now ≡ location) × (x.1.now ≡ day)) }
    {
        let rest = strip_both(file, self.network, self.station)?;
        let (location, rest) = cut(rest, '.')?;
        let rest = strip_both(rest, self.channel, self.data_type)?;
        let day = strip(rest, self.year)?;
        Some((location, day))
    }

    /// The parts between the separators, whatever they are.
    fn cut(text: &'a str) -> Option<Parts<'a>>
        ensures found { IfSome result (λ parts. text.now ≡ path_of (parts_of parts)) }
        ensures only { (path : SdsPath) → HaveNoSeparator path → text.now ≡ path_of path
            → IsSomeAnd result (λ parts. parts_of parts ≡ path) }
    {
        let (parts, file) = Parts::cut_folders(text)?;
        let (location, day) = parts.cut_file(file)?;
        Some(Parts {
            location,
            day,
            ..parts
        })
    }

    /// Whether each part is of its form.
    fn have_form(&self) -> bool
        ensures { IsTrue result ↔ HasForm (parts_of self.now) }
    {
        are_digits(self.year, 4)
            && is_code(self.network)
            && is_code(self.station)
            && is_location(self.location)
            && is_code(self.channel)
            && is_data_type(self.data_type)
            && are_digits(self.day, 3)
    }

    /// The parts of a path, if each is of its form.
    pub(crate) fn read(text: &'a str) -> Option<Parts<'a>>
        ensures found { IfSome result (λ parts. ReadsAs text.now (parts_of parts)) }
        ensures only { (path : SdsPath) → ReadsAs text.now path
            → IsSomeAnd result (λ parts. parts_of parts ≡ path) }
    {
        let parts = Parts::cut(text)?;
        if parts.have_form() { Some(parts) } else { None }
    }

    /// Whether the year is from 1900 to 2100 and has the day.
    pub(crate) fn have_date(&self) -> bool
        requires { HasForm (parts_of self.now) }
        ensures { IsTrue result ↔ HasDate (parts_of self.now) }
    {
        let midnight = BTime {
            year: number(self.year),
            day: number(self.day),
            hour: 0,
            minute: 0,
            second: 0,
            fract: 0,
        };
        midnight.micros().is_some()
    }
}
