//! The words of which the tags of a target are made, in one text that these share.

ghost use Rattle.std.specs.Prelude.{◌≡◌, ◌∷◌, [], ◌++◌, ◌<◌, true, IfOk, OnOk, map, option_map};
ghost use Rattle.std.specs.Prelude.{option_to_list, string_bytes};
ghost use Rattle.std.specs.Rc.{rc_str_bytes};
ghost use Rattle.pywheel_core.specs.Inner.TargetWords.{abi_words, python_words, target_words};
ghost use Rattle.pywheel_core.specs.Inner.Words.{AreWords, joined, words_at};
ghost use Rattle.pywheel_core.specs.Target.Platforms as platforms;
ghost use Rattle.pywheel_core.specs.Target.Tags as tags;
ghost use Rattle.pywheel_core.specs.Target.Value.{is_platform};

use crate::span::Span;
use crate::target::Target;
use crate::target::cpython::CPython;
use crate::target::platform::{LinuxArch, MacArch, Platform};
use itoa::Buffer;
use std::alloc::{AllocError, Global};
use std::marker::Model;
use std::rc::RcStr;

/// Words that stand one after the other in one text.
pub(crate) struct Words {
    text: String,
    spans: Vec<Span>,
}

impl Model for Words {
    ghost use Rattle.std.specs.Prelude.{ℕ, List, string_bytes};
    ghost use Rattle.pywheel_core.specs.Inner.Words.{AreWords, words_at};

    ghost Value = { List (List ℕ) };

    ghost view = { λ w. words_at (string_bytes w.text) w.spans.items };

    ghost invariant = { λ w. AreWords (string_bytes w.text) w.spans.items };
}

impl Drop for Words {
    fn drop(self) {
        let Words { text: _, spans: _ } = self;
    }
}

impl Words {
    fn none(alloc: Global) -> Words
        ensures { result ≡ [] }
    {
        Words {
            text: String::new(alloc),
            spans: Vec::new(alloc),
        }
    }

    /// The words of the tags of a target.
    #[tactic(auto, unfolding(crate::specs::Inner::TargetWords::target_words))]
    pub(crate) fn of_target(alloc: Global, target: &Target) -> Result<Words, AllocError>
        ensures { IfOk result (λ words. words ≡ target_words target.now) }
    {
        let python = target.python();
        Words::none(alloc)
            .with_abis(python)?
            .with(&["any"])?
            .with_cpythons(python.minor)?
            .with_pythons(python.minor)?
            .with_platforms(target.platform())
    }

    /// The text, and where each word stands in it.
    pub(crate) fn into_parts(self) -> Result<(RcStr, Vec<Span>), AllocError>
        ensures words { IfOk result (λ x. words_at (rc_str_bytes x.0) x.1.items ≡ self) }
        ensures whole { IfOk result (λ x. AreWords (rc_str_bytes x.0) x.1.items) }
    {
        let Words { text, spans } = self;
        Ok((RcStr::from_string(text)?, spans))
    }

    /// The words, and the one that these pieces make.
    fn with(self, pieces: &[&str]) -> Result<Words, AllocError>
        ensures { IfOk result (λ words.
            words ≡ self ++ joined (map (λ piece. piece.now) pieces.now) ∷ []) }
    {
        let Words {
            mut text,
            mut spans,
        } = self;
        let start = text.as_str().len();
        push_pieces(&mut text, pieces)?;
        let end = text.as_str().len();
        spans.push(Span { start, end })?;
        Ok(Words { text, spans })
    }

    fn with_abis(self, python: CPython) -> Result<Words, AllocError>
        ensures { IfOk result (λ words. words ≡ self ++ abi_words python) }
    {
        let mut buffer = Buffer::new();
        let minor = buffer.format(python.minor);
        if python.is_free_threaded {
            self.with(&["cp3", minor, "t"])?
                .with(&["abi3t"])?
                .with(&["none"])
        } else {
            self.with(&["cp3", minor])?.with(&["abi3"])?.with(&["none"])
        }
    }

    /// The words, and the CPythons from 3.2 on that are older than 3.`minor`.
    fn with_cpythons(self, minor: u8) -> Result<Words, AllocError>
        ensures { IfOk result (λ words. words ≡ self ++ tags.older_cpythons minor) }
    {
        let mut words = self;
        for older in (2..minor).rev() {
            words = words.with(&["cp3", Buffer::new().format(older)])?;
        }
        Ok(words)
    }

    /// The words, and the Pythons whose wheels 3.`minor` takes.
    fn with_pythons(self, minor: u8) -> Result<Words, AllocError>
        ensures { IfOk result (λ words. words ≡ self ++ python_words minor) }
    {
        let mut buffer = Buffer::new();
        let number = buffer.format(minor);
        self.with(&["cp3", number])?
            .with(&["py3", number])?
            .with(&["py3"])?
            .with_older_pythons(minor)
    }

    fn with_older_pythons(self, minor: u8) -> Result<Words, AllocError>
        ensures { IfOk result (λ words.
            words ≡ self ++ map tags.python_name (platforms.down 0 minor)) }
    {
        let mut words = self;
        for older in (0..minor).rev() {
            words = words.with(&["py3", Buffer::new().format(older)])?;
        }
        Ok(words)
    }

    fn with_platforms(self, platform: Platform) -> Result<Words, AllocError>
        requires { is_platform platform ≡ true }
        ensures { IfOk result (λ words. words ≡ self ++ platforms.platforms_of platform) }
    {
        match platform {
            Platform::Manylinux { minor, arch } => self.with_manylinux(minor, arch),
            Platform::Musllinux { minor, arch } => self.with_musllinux(minor, arch),
            Platform::MacOs { major, minor, arch } => self.with_macos(major, minor, arch),
            Platform::Windows(arch) => self.with(&[arch.name()]),
        }
    }

    #[tactic(auto, unfolding(crate::specs::Target::Platforms::manylinux_platforms))]
    fn with_manylinux(self, minor: u8, arch: LinuxArch) -> Result<Words, AllocError>
        requires { minor < 255 }
        ensures { IfOk result (λ words.
            words ≡ self ++ platforms.manylinux_platforms minor arch) }
    {
        let mut words = self;
        for glibc in (arch.glibc_floor()..minor + 1).rev() {
            words = words.with_glibc(glibc, arch)?;
        }
        words.with(&["linux_", arch.name()])
    }

    /// The words, and the names for one version of glibc.
    fn with_glibc(self, minor: u8, arch: LinuxArch) -> Result<Words, AllocError>
        ensures { IfOk result (λ words. words ≡ self ++ platforms.glibc_names arch minor) }
    {
        let mut buffer = Buffer::new();
        let number = buffer.format(minor);
        let words = self.with(&["manylinux_2_", number, "_", arch.name()])?;
        match older_name(minor) {
            Some(older) => words.with(&[older, "_", arch.name()]),
            None => Ok(words),
        }
    }

    #[tactic(auto, unfolding(crate::specs::Target::Platforms::musllinux_platforms))]
    fn with_musllinux(self, minor: u8, arch: LinuxArch) -> Result<Words, AllocError>
        requires { minor < 255 }
        ensures { IfOk result (λ words.
            words ≡ self ++ platforms.musllinux_platforms minor arch) }
    {
        let mut words = self;
        for musl in (0..minor + 1).rev() {
            words = words.with_musl(musl, arch)?;
        }
        words.with(&["linux_", arch.name()])
    }

    /// The words, and the name for one version of musl.
    fn with_musl(self, minor: u8, arch: LinuxArch) -> Result<Words, AllocError>
        ensures { IfOk result (λ words. words ≡ self ++ platforms.musl_name arch minor ∷ []) }
    {
        let mut buffer = Buffer::new();
        self.with(&["musllinux_1_", buffer.format(minor), "_", arch.name()])
    }

    #[tactic(auto, unfolding(crate::specs::Target::Platforms::mac_platforms))]
    fn with_macos(self, major: u8, minor: u8, arch: MacArch) -> Result<Words, AllocError>
        requires major { major < 255 }
        requires minor { minor < 255 }
        ensures { IfOk result (λ words.
            words ≡ self ++ platforms.mac_platforms major minor arch) }
    {
        if major < 11 {
            return self.with_old_macos(minor + 1, arch);
        }
        let mut words = self;
        for version in (11..major + 1).rev() {
            words = words.with_mac_version(version, 0, arch)?;
        }
        words.with_old_macos(17, arch)
    }

    /// The words, and the names for macOS from 10.4 on and below 10.`end`.
    fn with_old_macos(self, end: u8, arch: MacArch) -> Result<Words, AllocError>
        ensures { IfOk result (λ words. words ≡ self ++ platforms.old_mac_platforms arch end) }
    {
        let mut words = self;
        for minor in (4..end).rev() {
            words = words.with_mac_version(10, minor, arch)?;
        }
        Ok(words)
    }

    /// The words, and the names for one version of macOS.
    fn with_mac_version(self, major: u8, minor: u8, arch: MacArch) -> Result<Words, AllocError>
        ensures { IfOk result (λ words. words ≡ self ++ platforms.mac_names arch major minor) }
    {
        let (mut first, mut second) = (Buffer::new(), Buffer::new());
        let (major_text, minor_text) = (first.format(major), second.format(minor));
        let mut words = self;
        for format in formats(arch, major) {
            words = words.with(&["macosx_", major_text, "_", minor_text, "_", format])?;
        }
        Ok(words)
    }
}

/// What wheels for glibc 2.`minor` were called before PEP 600, if they were.
fn older_name(minor: u8) -> Option<&'static str>
    ensures { option_to_list (option_map (λ name. name.now) result)
        ≡ platforms.older_names minor }
{
    if minor == 17 {
        Some("manylinux2014")
    } else if minor == 12 {
        Some("manylinux2010")
    } else if minor == 5 {
        Some("manylinux1")
    } else {
        None
    }
}

/// The formats of programs that run there.
fn formats(arch: MacArch, major: u8) -> &'static [&'static str]
    ensures { map (λ name. name.now) result.now ≡ platforms.mac_formats arch major }
{
    match arch {
        MacArch::X86_64 => &[
            "x86_64",
            "intel",
            "fat64",
            "fat32",
            "universal2",
            "universal",
        ],
        MacArch::Arm64 => {
            if major < 11 {
                &["universal2"]
            } else {
                &["arm64", "universal2"]
            }
        }
    }
}

/// Adds the pieces to the text.
fn push_pieces(text: &mut String, pieces: &[&str]) -> Result<(), AllocError>
    ensures { OnOk result (string_bytes text.new
        ≡ string_bytes text.old ++ joined (map (λ piece. piece.now) pieces.now)) }
{
    for piece in pieces {
        text.push_str(piece)?;
    }
    Ok(())
}
