//! What a file is that holds no image of these drives, by its first bytes.

ghost use Rattle.std.specs.Prelude.{◌≡◌, length, option_map};
ghost use Rattle.dasd_jobs.specs.Found.{found_text, packed_text, drive_text};

/// What a file that begins with these bytes is, where they are those of a packed file, of another kind of Hercules image or of another
/// drive's image; and which command unpacks it, if one does.
pub(crate) fn found_text(header: &[u8]) -> Option<&'static str>
    requires whole { length header.now ≡ 512 }
    ensures { option_map (λ t. t.now) result ≡ found_text header.now }
{
    if header[..8] == b"CKD_P370"[..] {
        return drive_text(header[16]);
    }
    if header[..5] == b"CKD_C"[..] {
        return Some("it is a compressed image (CCKD)");
    }
    if header[..5] == b"CKD_S"[..] {
        return Some(
            "it is a shadow file: it has what was written since the image was made that it belongs to",
        );
    }
    packed_text(header)
}

// What packed the file, by the formats' own first bytes.
fn packed_text(header: &[u8]) -> Option<&'static str>
    requires whole { length header.now ≡ 512 }
    ensures { option_map (λ t. t.now) result ≡ packed_text header.now }
{
    if header[..2] == [0x1F, 0x8B][..] {
        return Some("it is packed: gzip -d unpacks it");
    }
    if header[..6] == [0xFD, 0x37, 0x7A, 0x58, 0x5A, 0x00][..] {
        return Some("it is packed: xz -d unpacks it");
    }
    if header[..3] == b"BZh"[..] {
        return Some("it is packed: bzip2 -d unpacks it");
    }
    if header[..4] == [0x50, 0x4B, 0x03, 0x04][..] {
        return Some("it is packed: unzip unpacks it");
    }
    if header[..4] == [0x28, 0xB5, 0x2F, 0xFD][..] {
        return Some("it is packed: zstd -d unpacks it");
    }
    None
}

// Whose image it is, by the device type that Hercules writes.
fn drive_text(device_type: u8) -> Option<&'static str>
    ensures { option_map (λ t. t.now) result ≡ drive_text device_type }
{
    match device_type {
        0x05 => Some("it is an image of a 2305"),
        0x30 => Some("it is an image of a 3330"),
        0x40 => Some("it is an image of a 3340"),
        0x50 => Some("it is an image of a 3350"),
        0x75 => Some("it is an image of a 3375"),
        0x80 => Some("it is an image of a 3380"),
        0x90 => Some("it is an image of a 3390"),
        0x45 => Some("it is an image of a 9345"),
        _ => None,
    }
}
