/// A place of a list as a number. A list has never as many items as the greatest number.
pub fn number_of(place: usize) -> u32 {
    place.min(u32::MAX as usize) as u32
}
