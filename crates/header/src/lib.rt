// The file header: 32 bytes, all ASCII.
#![tactic(auto)]

ghost use Rattle.std.specs.Prelude.{◌||◌, ◌≡◌, ◌≤◌, length, drop};
ghost use Rattle.rules.specs.Rules as R;
ghost use Rattle.header.specs.Letters.{lettered};
ghost use Rattle.header.specs.Opened.{HeaderRead};

use records::{between, same};
use rules::{FileHeader, Form, Heading, Label, Reason, Refusal, Spelling, Version};
use versions::allows;
use words::{Order, byte};

pub fn order_of(letter: u32) -> Option<Order>
    ensures { result ≡ lettered letter }
{
    if letter == FileHeader::LITTLE {
        return Some(Order::Little);
    }
    if letter == FileHeader::BIG {
        return Some(Order::Big);
    }
    None
}

// Whether bytes are one of two texts.
fn is_one_of(bytes: &[u8], first: &[u8], second: &[u8]) -> bool
    ensures { result ≡ (R.same_bytes bytes.now first.now || R.same_bytes bytes.now second.now) }
{
    if same(bytes, first) {
        return true;
    }
    same(bytes, second)
}

// Which spelling a name is that is one of the two.
fn spelling_of(name: &[u8]) -> Spelling
    ensures { result ≡ R.spelling_of name.now }
{
    if same(name, b"JSSR-SPG") {
        return Spelling::Spg;
    }
    Spelling::Psg
}

// A script that the version allows.
fn script_ok(v: Version, letter: u32) -> bool
    ensures { result ≡ R.is_script v letter }
{
    if letter == FileHeader::SCRIPT_S {
        return true;
    }
    if letter == FileHeader::SCRIPT_J {
        return true;
    }
    if letter == FileHeader::SCRIPT_E {
        return true;
    }
    if letter != FileHeader::SCRIPT_U {
        return false;
    }
    let allowed = allows(v);
    allowed.unicode
}

// Only spaces.
fn spaces(s: &[u8]) -> bool
    ensures { result ≡ R.all_spaces s.now }
{
    for b in s {
        if *b != FileHeader::SPACE {
            return false;
        }
    }
    true
}

// The number that digits and then only spaces stand for, and 0 for anything else.
fn count_of(s: &[u8]) -> u32
    requires { length s.now ≤ 4 }
    ensures { result ≡ R.count_is (R.count_of s.now) }
{
    let mut value: u32 = 0;
    for i in 0..s.len() {
        let b = byte(s, i);
        if !between(FileHeader::ZERO, FileHeader::NINE, b) {
            if !spaces(&s[i..]) {
                return 0;
            }
            return value;
        }
        value = 10 * value + (b - FileHeader::ZERO);
    }
    value
}

// Whether digits are a version's.
fn is_version(digits: &[u8]) -> bool
    ensures { result ≡ R.is_version digits.now }
{
    if is_one_of(digits, b"000100", b"000110") {
        return true;
    }
    is_one_of(digits, b"000200", b"000300")
}

// Which version digits name that are those of one of the four.
fn version_of(digits: &[u8]) -> Version
    ensures { result ≡ R.version_of digits.now }
{
    if same(digits, b"000100") {
        return Version::V100;
    }
    if same(digits, b"000110") {
        return Version::V110;
    }
    if same(digits, b"000200") {
        return Version::V200;
    }
    Version::V300
}

// Whether digits are those of a form that the version allows.
fn form_ok(v: Version, digits: &[u8]) -> bool
    ensures { result ≡ R.is_form v digits.now }
{
    if same(digits, b"00") {
        return true;
    }
    if !same(digits, b"01") {
        return false;
    }
    let allowed = allows(v);
    allowed.electrodes
}

// Which form digits name that are those of one of the two.
fn form_of(digits: &[u8]) -> Form
    ensures { result ≡ R.form_of digits.now }
{
    if same(digits, b"00") {
        return Form::Channels;
    }
    Form::Electrodes
}

// The file header, in the order that its letter names.
pub fn file_header(s: &[u8]) -> Result<FileHeader, Refusal>
    ensures { HeaderRead s.now result }
{
    if s.len() < FileHeader::LENGTH {
        return Err(Refusal(Reason::Short, 0));
    }
    let name = &s[FileHeader::IDENTIFIER..FileHeader::VERSION];
    if !is_one_of(name, b"JSSR-SPG", b"JSSR-PSG") {
        return Err(Refusal(Reason::Identifier, FileHeader::IDENTIFIER));
    }
    let digits = &s[FileHeader::VERSION..FileHeader::FORM];
    if !is_version(digits) {
        return Err(Refusal(Reason::Version, FileHeader::VERSION));
    }
    let version = version_of(digits);
    let form = &s[FileHeader::FORM..FileHeader::ORDER];
    if !form_ok(version, form) {
        return Err(Refusal(Reason::Form, FileHeader::FORM));
    }
    let order = order_of(byte(s, FileHeader::ORDER)).ok_or(Refusal(
        Reason::Order,
        FileHeader::ORDER,
    ))?;
    let script = byte(s, FileHeader::SCRIPT);
    if !script_ok(version, script) {
        return Err(Refusal(Reason::Script, FileHeader::SCRIPT));
    }
    let count = count_of(&s[FileHeader::COUNT..FileHeader::SPACES]);
    if !between(1, FileHeader::MOST, count) {
        return Err(Refusal(Reason::Count, FileHeader::COUNT));
    }
    if !spaces(&s[FileHeader::SPACES..FileHeader::LENGTH]) {
        return Err(Refusal(Reason::Spaces, FileHeader::SPACES));
    }
    let heading = Heading {
        spelling: spelling_of(name),
        label: Label {
            version,
            form: form_of(form),
        },
        script,
    };
    Ok(FileHeader {
        order,
        heading,
        count,
    })
}
