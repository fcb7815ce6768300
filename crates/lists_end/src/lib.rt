// What a weight list's sums are, and that they end, is a specification only.
