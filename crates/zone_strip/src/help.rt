pub(crate) const HELP: &str = "\
zone_strip CARD..           prints the zone marks of the stops, a letter for each pixel
zone_strip --picture CARD   writes them as a picture (PPM) to standard output

The card has the tiles at address 0 (8 by 8 pixels of 4 bits) and the tile of each stop at address 0x3F0.
Ink 1, the colour of zone 1, is yellow; ink 2, that of zone 2, is red; everything else is night blue.
";
