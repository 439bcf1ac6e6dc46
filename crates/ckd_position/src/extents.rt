//! Which bytes of an area are meant.

/// Which bytes of the home address or of a record a command gives, compares or replaces.
#[derive(Clone, Copy)]
pub enum AreaBytes {
    /// None.
    Nothing,
    /// Cylinder and head of the home address.
    CylinderAndHead,
    /// The home address with its flag.
    HomeAddress,
    /// Cylinder, head and record number of a count area.
    Identifier,
    /// The count area.
    Count,
    /// The key area.
    Key,
    /// The data area.
    Data,
    /// The key area and the data area.
    KeyAndData,
    /// The whole record.
    CountKeyAndData,
}
