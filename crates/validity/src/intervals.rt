// What a close needs of the readings, which come as columns of positions on the axis, indexes and kinds.
mod days; // energy and daily total of the interval around each day
mod index; // whether a year's index is valid
